//! What a node of a device tree source says of clocks by itself.
#![tactic(auto)]

mod bindings;
mod bound;
mod clocks;
mod fault;
mod formed;
mod kinds;
mod node;
mod nodes;
mod properties;
mod reading;
mod table;

pub use bindings::binding;
pub use bound::{Binding, BoundClock, Wants};
pub use fault::BindingFault;
pub use formed::is_formed;
pub use node::Node;
pub use nodes::{clock_cells, is_consumer, is_okay, is_provider, phandle};
pub use properties::{has_property, values};
pub use reading::{cells, numbers, one_number, texts, two_numbers};
