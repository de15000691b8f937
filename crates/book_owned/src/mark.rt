use mdf_layout::Reserved;

/// From this moment of the disk on, each crash leaves a file that carries at least so many samples of the history.
#[derive(Clone, Copy, Debug)]
pub struct Mark {
    /// The disk's moment.
    pub moment: u64,
    /// How many samples, counted from the first of the history.
    pub through: u64,
}

/// A list of marks, with room for more that was found beforehand.
pub type Marks = Reserved<Mark>;
