//! Laws of the definitions: each is the contract of a function that does nothing.

pub mod causes;
pub mod ends;
pub mod exclusives;
pub mod feeding;
pub mod flights;
pub mod links;
pub mod notices;
pub mod outcomes;
pub mod paths;
pub mod planning;
pub mod plans;
pub mod refusals;
pub mod siblings;
pub mod tiers;
pub mod walks;
pub mod weight;
