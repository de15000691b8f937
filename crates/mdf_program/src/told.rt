// What is said on standard error of an input that is refused. If that fails too, there is nobody left to tell.

use mdf_hostfile::{Named, name_of};
use mdf_run::Input;

/// Says which input is refused, if the command ended for one, or that both are.
pub(crate) fn tell_refused<R: Eprint, F: Named>(
    rt: &R,
    blamed: Option<Input>,
    first: &F,
    second: &F,
) {
    let (one, other) = (name_of(first), name_of(second));
    let _ = match blamed {
        Some(Input::First) => eprintln!(rt; "{one}: refused"),
        Some(Input::Second) => eprintln!(rt; "{other}: refused"),
        Some(Input::Both) => eprintln!(rt; "{one} and {other}: refused"),
        None => Ok(()),
    };
}
