/// What a disk is attached for.
#[derive(Clone, Copy, Debug)]
pub enum Role {
    /// To read a file that is there.
    Read,
    /// To make a new file; a name that is taken is a fault.
    Create,
}
