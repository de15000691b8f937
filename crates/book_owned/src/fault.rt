/// The disk failed in a call: its count of faults before the call and after it.
#[derive(Clone, Copy)]
pub struct Fault {
    pub before: u64,
    pub after: u64,
}
