use mdf_layout::Sample;

/// What can happen to a book.
#[derive(Drop)]
pub enum Event {
    /// A sample is accepted, where the book is not stopped.
    Accept(Sample),
    /// A call is refused. Nothing changes.
    Refuse,
    /// So many samples become durable, where the book is not stopped, no more are accepted and no more were durable before.
    FlushTo(u64),
    /// All accepted samples become durable, where the book is not stopped.
    FlushDone,
    /// The disk failed: the book is stopped from now on.
    FlushFailed,
    /// So many samples are shown, where no fewer are durable and no more were shown before.
    Publish(u64),
}
