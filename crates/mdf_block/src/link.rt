/// What a link of a block in a draft names.
#[derive(Clone, Copy, Debug)]
pub enum Link {
    /// Nothing: the number 0.
    Nothing,
    /// The block of this number in the draft, counted from 0.
    Block(u32),
    /// The end of the draft when its bytes are written.
    End,
}
