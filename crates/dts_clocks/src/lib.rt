//! What a device tree says of clocks: a description, the lines of its clocks, the consumers, and
//! the clocks that are assigned.
#![tactic(auto)]

mod above;
mod assigned;
mod chart;
mod consumers;
mod fault;
mod first_pass;
mod loaded;
mod loading;
mod nodes;
mod numbers;
mod reading;
mod reference;
mod second_pass;
mod specifiers;
mod taken;
mod verdict;

pub use fault::DtsFault;
pub use loaded::{Assigned, AssignedStep, Consumer, ConsumerName, Loaded};
pub use reading::read_desc;
pub use verdict::{each_has_its_name, each_has_its_parents, one_verdict};
