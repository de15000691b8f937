/// The identification (IDBLOCK): what the first 64 bytes of a file say.
#[derive(Clone, Copy, Debug)]
pub struct Ident {
    /// Whether the file says that it is finalized.
    pub finalized: bool,
    /// The version: 410 for 4.10.
    pub ver: u16,
    /// The standard flags of an unfinalized file: what is still to be done to it.
    pub std_flags: u16,
    /// The custom flags of an unfinalized file, which belong to the tool that wrote it.
    pub custom_flags: u16,
}
