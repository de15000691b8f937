ghost use Rattle.std.specs.Prelude.{◌≡◌, List, ℕ};
ghost use Rattle.mdf_format.specs.Form.{form_of};
ghost use Rattle.mdf_format.specs.declared.form.Form.TheVariants.{Listed};
ghost use Rattle.mdf_layout.specs.Layout.{Layout};
ghost use Rattle.mdf_layout.specs.declared.sample.Sample.{Sample};
ghost use Rattle.mdf_gate.specs.Chain.{IsListChain};
ghost use Rattle.mdf_gate.specs.Recording.{IsOpened, IsOpenedTo, first_place};
ghost use Rattle.mdf_gate.specs.Carried.{IsCarried};

/// A law: a recording has one list of opened blocks, and carries one list of samples of these layouts.
pub fn carries_one_list()
    ensures blocks { (file : List ℕ) (blocks others : List (List ℕ)) → IsOpened file blocks → IsOpened file others → blocks ≡ others }
    ensures samples { (layouts : List Layout) (file : List ℕ) (samples others : List Sample)
        → IsCarried layouts file samples → IsCarried layouts file others → samples ≡ others }
{}

/// A law: in a recording of form 2 the opened blocks are the data blocks that a chain of list blocks names from the first place
/// on, up to the closed place.
pub fn lists_lead_to_each_block()
    ensures { (file : List ℕ) (blocks : List (List ℕ)) (last : ℕ) → form_of file ≡ Listed → IsOpenedTo file blocks last
        → IsListChain file (first_place file) blocks last }
{}
