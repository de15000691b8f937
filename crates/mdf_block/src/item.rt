use crate::Link;
use mdf_format::Kind;
use mdf_num::Bytes;

/// A block of a draft, and its address.
#[derive(Drop)]
pub(crate) struct Item {
    pub(crate) kind: Kind,
    pub(crate) at: u64,
    pub(crate) links: Vec<Link>,
    pub(crate) body: Bytes,
}
