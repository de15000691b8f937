ghost use Rattle.std.specs.Prelude.{ℕ, ◌≡◌, List, [], codes};
ghost use Rattle.mdf_attach.specs.declared.attachment.Attachment.{Attachment};
ghost use Rattle.mdf_model.specs.Measurement.{Measured};
ghost use Rattle.tool_sort.specs.Sorted.{sorted_file};
ghost use Rattle.tool_attach.specs.Attached.{attached_file};
ghost use Rattle.tool_attach.specs.Bytes.{with_attachments};

/// The file without an attachment is the sorted file.
pub fn none_is_the_sorted_file()
    ensures { (m : Measured) (now : ℕ) → attached_file m [] now ≡ sorted_file m (codes "attach") now }
{}

/// The file with attachments is the sorted file byte by byte, but for the header's link to the first of them, and behind it stand their
/// blocks.
pub fn attachments_stand_behind_the_sorted_file()
    ensures { (m : Measured) (rows : List Attachment) (now : ℕ)
        → attached_file m rows now ≡ with_attachments (sorted_file m (codes "attach") now) rows }
{}
