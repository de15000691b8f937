/// What may still come of the attachments of a file.
#[derive(Clone, Copy)]
pub(crate) struct Budget {
    /// How many bytes texts may still have.
    pub(crate) text: u64,
    /// How many bytes embedded data may still have.
    pub(crate) embedded: u64,
}
