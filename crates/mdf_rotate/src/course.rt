// How a rotation goes on from one part to the next.
ghost use Rattle.std.specs.Prelude.{◌≡◌};
ghost use Rattle.acq_script.specs.Stage.{IsScript};
ghost use Rattle.mdf_rotate.specs.Course.{BeginComes, course_behind, end_of};

use acq_script::Script;
use book_rotate::{RotateFault, Rotation};
use mdf_command::Fault;
use mdf_record::RecordEnd;
use std::alloc::Global;

/// How a rotation ended.
#[derive(Clone, Copy)]
pub enum RotateEnd {
    /// All of the script was recorded.
    Whole,
    /// A part was recorded on every disk, and samples are left.
    Over,
    /// Something went wrong.
    Faulted(Fault),
}

/// What is left of the script, or how the rotation has ended.
pub(crate) type Course = Result<Rotation, RotateEnd>;

/// Begins a rotation.
pub(crate) fn begin(alloc: Global, script: Script) -> Course
    requires { IsScript script }
    ensures { BeginComes script result }
{
    match Rotation::begin(alloc, script) {
        Ok(rotation) => Ok(rotation),
        Err((RotateFault::Large { size, limit }, _)) => {
            Err(RotateEnd::Faulted(Fault::SessionFull {
                held: 0,
                size,
                limit,
            }))
        }
        Err((RotateFault::Memory, _)) => Err(RotateEnd::Faulted(Fault::Memory)),
    }
}

/// How a rotation goes on behind a part that ended so, where this is left.
pub(crate) fn course_behind(end: &RecordEnd, rest: Rotation) -> Course
    ensures { result ≡ course_behind end.now rest }
{
    match end {
        RecordEnd::Refused(fault) => Err(RotateEnd::Faulted(*fault)),
        RecordEnd::Closed {
            fault: Some(fault),
            ..
        } => Err(RotateEnd::Faulted(*fault)),
        RecordEnd::Closed { fault: None, .. } => {
            if rest.is_done() {
                Err(RotateEnd::Whole)
            } else {
                Ok(rest)
            }
        }
    }
}

/// How a rotation ended that came to this behind the last disk.
pub(crate) fn end_of(course: Course) -> RotateEnd
    ensures { result ≡ end_of course }
{
    match course {
        Ok(_) => RotateEnd::Over,
        Err(end) => end,
    }
}
