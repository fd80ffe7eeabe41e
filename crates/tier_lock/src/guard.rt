//! What a pass has in its turn.
use crate::kept::Kept;

/// The lock's value, while a pass holds the turn. It can't be dropped: `give_entry` or `give_back` takes it.
pub struct Guard<T: Kept> {
    pub value: T,
}
