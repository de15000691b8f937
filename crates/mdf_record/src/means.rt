use std::alloc::Global;

/// What recordings are made with.
#[derive(Drop)]
pub struct Means<'a, R, G> {
    /// Where threads are started.
    pub rt: &'a R,
    pub alloc: Global,
    /// The time, in nanoseconds since 1970.
    pub now_ns: u64,
    /// What each source passes before it takes its next item.
    pub gate: &'a G,
}
