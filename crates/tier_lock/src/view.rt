//! What a seat of the table knows. No value of these types is made: they exist for proofs alone.
use std::alloc::Global;
use std::collections::LinkedList;

/// A live pass, a baton that no pass has, or what a seat that was joined to another is left with.
pub struct View<E, F> {
    /// Whether it is a pass: it has a number.
    pub live: bool,
    pub number: u32,
    /// The log as far as this seat was shown it.
    pub seen: LinkedList<E, Global>,
    /// The entries of its number.
    pub mine: LinkedList<E, Global>,
    /// The cost of entries that it may still add.
    pub room: u32,
    /// The fixed part of the lock's value.
    pub fixed: Option<F>,
    /// Of number 0: how many numbers were made.
    pub made: u32,
    /// What is kept of numbers that have ended.
    pub ended: LinkedList<Ended<E, F>, Global>,
    pub baton: bool,
    /// Whether it holds the turn.
    pub turn: bool,
    /// What a baton knew that was joined to this seat, until the load behind the join.
    pub beside: Option<Lent<E, F>>,
}

/// What is kept of a pass that has ended.
pub struct Ended<E, F> {
    pub number: u32,
    pub seen: LinkedList<E, Global>,
    pub mine: LinkedList<E, Global>,
    pub made: u32,
    pub fixed: Option<F>,
}

/// What a baton knew when it was lent.
pub struct Lent<E, F> {
    pub seen: LinkedList<E, Global>,
    pub fixed: Option<F>,
}
