use acq_script::Plan;
use mdf_num::Bytes;
use std::alloc::Global;

/// What a log is made with.
#[derive(Drop)]
pub struct Logging<'a, R> {
    /// Where threads are started.
    pub rt: &'a R,
    pub alloc: Global,
    /// The name that the names of the parts begin with.
    pub output: &'a Bytes,
    /// The time, in nanoseconds since 1970.
    pub now_ns: u64,
    pub plan: &'a Plan,
}
