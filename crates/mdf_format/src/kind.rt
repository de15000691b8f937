/// The kind of a block: the two letters behind the `##` of its identification.
#[derive(Clone, Copy, Debug, PartialEq, Eq)]
pub enum Kind {
    /// HDBLOCK: the header of the file, at address 64.
    Hd,
    /// FHBLOCK: an entry of the file history.
    Fh,
    /// DGBLOCK: a data group.
    Dg,
    /// CGBLOCK: a channel group.
    Cg,
    /// CNBLOCK: a channel.
    Cn,
    /// CCBLOCK: a channel conversion.
    Cc,
    /// SIBLOCK: the source of a channel or of a channel group.
    Si,
    /// TXBLOCK: a plain text.
    Tx,
    /// MDBLOCK: a text in XML.
    Md,
    /// DTBLOCK: records.
    Dt,
    /// DLBLOCK: a list of data blocks.
    Dl,
    /// SDBLOCK: values of variable length.
    Sd,
    /// ATBLOCK: an attachment.
    At,
}
