//! The notifiers of each clock, in the order in which they are told of a change: by falling
//! priority, equals in the order of adding.
#![tactic(auto)]

mod chain;
mod fault;
mod notifier;
mod notifiers;

pub use fault::ChainFault;
pub use notifier::Notifier;
pub use notifiers::{Chain, Notifiers};
