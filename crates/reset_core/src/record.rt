//! What is known of a handle.

ghost use Rattle.std.specs.Prelude.{◌≡◌};
ghost use Rattle.reset_core.specs.Lines.{is_shared};

use crate::call::ResetKind;

/// A live handle. Its number is its place among all that were made.
#[derive(Clone, Copy, Debug, PartialEq, Eq)]
pub struct HandleRecord {
    pub driver: u32,
    pub line: u32,
    pub kind: ResetKind,
    /// Of a shared handle: its deasserts that no assert has taken back.
    pub deasserts: u32,
    /// Of another one: whether it may assert and deassert its line.
    pub acquired: bool,
}

impl HandleRecord {
    pub(crate) fn is_shared(self) -> bool
        ensures { result ≡ is_shared self }
    {
        match self.kind {
            ResetKind::Exclusive | ResetKind::Released => false,
            ResetKind::Shared => true,
        }
    }
}
