// Which input a command is refused for.
ghost use Rattle.std.specs.Prelude.{◌≡◌};
ghost use Rattle.mdf_make.specs.Blamed.{only_blamed};

/// Which input the fault is of that a command ends with.
#[derive(Clone, Copy)]
pub enum Input {
    /// The first, or the only one.
    First,
    /// The second of two.
    Second,
    /// Both, which do not go together.
    Both,
}

/// How a command ended.
#[derive(Clone, Copy)]
pub struct Verdict {
    /// The program's status.
    pub status: u8,
    /// The input that is refused or too long, if it ended for one.
    pub blamed: Option<Input>,
}

/// Which input a command with at most one ended for.
fn only_blamed(status: u8) -> Option<Input>
    ensures { result ≡ only_blamed status }
{
    match status {
        3 | 5 => Some(Input::First),
        _ => None,
    }
}

impl Verdict {
    /// How a command with at most one input ended.
    pub fn of_one(status: u8) -> Verdict
        ensures status { result.status ≡ status }
        ensures blamed { result.blamed ≡ only_blamed status }
    {
        Verdict {
            status,
            blamed: only_blamed(status),
        }
    }
}
