//! The tree that the tokens of a device tree source spell.
//!
//! [`parse`] reads the tokens once, from left to right, with a stack of the nodes that are open. It
//! refuses a source at the first token that can't go on. What is read stands in flat tables, from
//! which the tree is made at the end.
#![tactic(auto)]

mod building;
mod fault;
mod laws;
mod mark;
mod names;
mod parsing;
mod reader;
mod reading;
mod rows;
mod targets;
mod tree;

pub use fault::TreeFault;
pub use laws::{accepted_is_spelled, spelled_is_accepted};
pub use parsing::parse;
pub use tree::{Cell, DtsNode, DtsProperty, DtsTree, DtsValue};
