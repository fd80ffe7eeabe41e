//! What no call changes of a bank. No value of this type is made: it exists for contracts alone.

use std::alloc::Global;
use std::collections::LinkedList;

/// What lies after the words of a description in a bank, and stays as it is.
pub struct Behind {
    /// The words after those, if the bank tells them.
    pub words: Option<LinkedList<u32, Global>>,
    /// How many polls the lock of each PLL asks for, if the bank tells it.
    pub delays: LinkedList<Option<u32>, Global>,
}
