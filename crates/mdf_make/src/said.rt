ghost use Rattle.std.specs.Prelude.{◌≡◌, None, Some};

use mdf_tool::Report;
use tool_complete::Completed;

/// What is printed of a file that was made.
#[derive(Clone, Copy)]
pub struct Said {
    /// What is told of it.
    pub report: Report,
    /// How many bytes at the end of the input were no whole record, where it was completed.
    pub rest: Option<u64>,
}

impl From<Report> for Said {
    ghost from_gives = { λ report said. said ≡ record { report = report; rest = None } };

    fn from(report: Report) -> Self {
        Said { report, rest: None }
    }
}

impl From<Completed> for Said {
    ghost from_gives = { λ told said. said ≡ record { report = told.report; rest = Some told.rest } };

    fn from(told: Completed) -> Self {
        Said {
            report: told.report,
            rest: Some(told.rest),
        }
    }
}
