//! What lies in a slot, as the half that it is known to be.
ghost use Rattle.std.specs.Prelude.{◌≡◌};
ghost use Rattle.book_shared.specs.declared.half.Half.TheVariants.{TheFront, TheBack};

use crate::half::Half;

/// The front that this is.
pub(crate) fn front_of<F, B>(half: Half<F, B>) -> F
    requires { (front : F) × (half ≡ TheFront front) }
    ensures { half ≡ TheFront result }
{
    match half {
        Half::TheFront(front) => front,
        _ => unreachable!(),
    }
}

/// The back that this is.
pub(crate) fn back_of<F, B>(half: Half<F, B>) -> B
    requires { (back : B) × (half ≡ TheBack back) }
    ensures { half ≡ TheBack result }
{
    match half {
        Half::TheBack(back) => back,
        _ => unreachable!(),
    }
}
