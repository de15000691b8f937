/// What is said of the MD5 of an attachment.
#[derive(Clone, Copy, Debug)]
pub enum Verdict {
    /// It is the MD5 of the embedded data.
    Ok,
    /// The embedded data has another one.
    Differs,
    /// The data is not embedded, or compressed, or no MD5 was stored.
    Unchecked,
}
