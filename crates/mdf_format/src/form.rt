ghost use Rattle.std.specs.Prelude.{◌≡◌, ◌≤◌, ◌↔◌, IsTrue};
ghost use Rattle.mdf_format.specs.Form.{NamesForm, custom_word, form_named, form_numbered, lead, names_form, standard_word};

/// The form of a recording: what stands at each of its places.
#[derive(Clone, Copy, Debug)]
pub enum Form {
    /// Form 1: a data block (DTBLOCK).
    Bare,
    /// Form 2: a list block (DLBLOCK), whose links name the next place and the data block behind it.
    Listed,
}

impl Form {
    /// The form of this number, if there is one.
    pub fn numbered(number: u64) -> Option<Form>
        ensures { result ≡ form_numbered number }
    {
        match number {
            1 => Some(Form::Bare),
            2 => Some(Form::Listed),
            _ => None,
        }
    }

    /// Whether the custom word of a file names a form.
    pub fn is_word(word: u16) -> bool
        ensures names { IsTrue result ↔ NamesForm word }
        ensures test { result ≡ names_form word }
    {
        word == 1 || word == 3
    }

    /// The form that a custom word names.
    pub fn of_word(word: u16) -> Form
        ensures { result ≡ form_named word }
    {
        if word == 3 { Form::Listed } else { Form::Bare }
    }

    /// The standard word that a recording of the form is made with.
    pub fn standard_word(self) -> u16
        ensures { result ≡ standard_word self }
    {
        match self {
            Form::Bare => 33,
            Form::Listed => 49,
        }
    }

    /// The custom word of a recording of the form.
    pub fn custom_word(self) -> u16
        ensures { result ≡ custom_word self }
    {
        match self {
            Form::Bare => 1,
            Form::Listed => 3,
        }
    }

    /// How many bytes stand before the data block at a place.
    pub fn lead(self) -> u64
        ensures lead { result ≡ lead self }
        ensures few { result ≤ 56 }
    {
        match self {
            Form::Bare => 0,
            Form::Listed => 56,
        }
    }
}
