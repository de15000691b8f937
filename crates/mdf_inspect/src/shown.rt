/// What a command on a file that is read through pages leaves.
pub struct Shown<A> {
    /// The program's status.
    pub status: u8,
    /// The disk of the file.
    pub first: A,
}
