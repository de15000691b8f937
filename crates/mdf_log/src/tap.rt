/// A source of a log: its input, and where it is told how many of its samples are durable.
#[derive(Drop)]
pub struct Tap<S, K> {
    pub input: S,
    pub told: K,
}
