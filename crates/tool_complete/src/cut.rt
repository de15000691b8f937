use crate::setting::Setting;

/// What is cut of the last block of data.
#[derive(Clone, Copy)]
pub(crate) struct Cut {
    /// Its length without the bytes that are no whole record.
    pub length: Setting,
    /// How many bytes these are.
    pub rest: u64,
}
