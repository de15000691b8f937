ghost use Rattle.std.specs.Prelude.{◌≡◌, List, ◌∷◌, ◌++◌, length};
ghost use Rattle.book_core.specs.Machine.{IsOrdered, begun, after, after_all};
ghost use Rattle.book_core.specs.Law.{GoesOn, IsHeld};
ghost use Rattle.book_core.specs.declared.event.Event.{Event};
ghost use Rattle.book_core.specs.declared.event.Event.TheVariants.{FlushDone, FlushFailed, FlushTo};

/// A law: whatever happens to a book from its beginning on, only durable samples are shown and only accepted ones are
/// durable; its history only grows, and neither of the two numbers falls; and once the disk failed the history and the
/// durable samples stay. To make all accepted samples durable is to make so many durable as were accepted.
pub fn machine_law()
    ensures ordered { (events : List Event) → IsOrdered (after_all begun events) }
    ensures grows { (events more : List Event) → GoesOn (after_all begun events) (after_all begun (events ++ more)) }
    ensures stays { (events more : List Event) → IsHeld (after_all begun events) (after_all begun (events ++ FlushFailed ∷ more)) }
    ensures whole { (events : List Event) → after (after_all begun events) FlushDone
        ≡ after (after_all begun events) (FlushTo (length (after_all begun events).history)) }
{}
