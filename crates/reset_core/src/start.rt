//! What a reset core began with. No value of this type is made: it exists for contracts alone.

use crate::call::ResetLine;
use std::alloc::Global;
use std::collections::LinkedList;

/// What stays as it is while calls are made.
pub struct ResetStart {
    /// How many words there are.
    pub words: u32,
    pub lines: LinkedList<ResetLine, Global>,
    /// For how many entries there is room.
    pub room: u32,
}
