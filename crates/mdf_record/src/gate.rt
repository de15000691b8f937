/// Lets each source of a recording pass before each sample and each flush that it takes from its list. No promise rests
/// on it; a test can hold a source back.
pub trait Gate {
    /// Before source `source` takes its next item.
    fn pass(&self, source: u8);
}

/// The gate that holds nobody back.
#[derive(Clone, Copy, Debug)]
pub struct Open;

impl Gate for Open {
    fn pass(&self, _source: u8) {}
}
