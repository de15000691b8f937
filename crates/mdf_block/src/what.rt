/// What there is too many of.
#[derive(Clone, Copy, Debug)]
pub enum What {
    /// FHBLOCKs: entries of the file history.
    Fh,
    /// DGBLOCKs: data groups.
    Dg,
    /// CGBLOCKs: channel groups.
    Cg,
    /// CNBLOCKs: channels.
    Cn,
    /// CCBLOCKs: conversions.
    Cc,
    /// Bytes of texts.
    Text,
    /// Blocks of a list of data.
    Block,
    /// Samples.
    Sample,
}
