/// The lock of a PLL: from which poll after its last start on it answers yes, and how many polls there
/// were since then.
#[derive(Clone, Copy, Debug, PartialEq, Eq)]
pub struct PllLock {
    pub delay: u32,
    pub polls: u32,
}
