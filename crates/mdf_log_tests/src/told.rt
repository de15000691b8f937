//! What is told of a call, as a text.
use mdf_num::Numbers;
use mdf_port::MemorySink;
use std::alloc::Global;
use std::test::Fail;

/// These numbers.
pub fn numbers(alloc: Global, items: &[u64]) -> Result<Numbers, Fail> {
    Ok(Numbers::from_vec(items.to_vec(alloc)?))
}

/// A status, and what was printed.
pub fn printed(alloc: Global, status: u8, sink: &MemorySink) -> Result<String, Fail> {
    let text = str::from_utf8(sink.bytes())?;
    Ok(format!(in alloc; "{status} {text}")?)
}
