//! Tests of the parts of the core, from the register bank up: each call with ample memory, worked out
//! by hand, and long runs beside plain lists.
#![tactic(auto)]

#[cfg(test)]
mod banks;
#[cfg(test)]
mod beside;
#[cfg(test)]
mod clocks;
#[cfg(test)]
mod closest;
#[cfg(test)]
mod descriptions;
#[cfg(test)]
mod kinds;
#[cfg(test)]
mod orders;
#[cfg(test)]
mod plain;
#[cfg(test)]
mod plans;
#[cfg(test)]
mod runs;
#[cfg(test)]
mod tests;
