//! The register bank: words of 32 bits that are read and written by place, and the bits and
//! fields in them.
//!
//! [`Bank`] is what the framework asks of the registers and of the locks of PLLs. [`MemBank`] is a
//! bank in memory, and [`TakenBits`] notes which bits of a bank have an owner.
#![tactic(auto)]

mod bank;
mod bits;
mod fields;
mod mem_bank;
mod pll_lock;
mod taken_bits;
mod zeros;

pub use bank::Bank;
pub use bits::{read_bit, write_bit};
pub use fields::{read_field, write_field};
pub use mem_bank::{MEM_BANK_WORDS, MemBank};
pub use pll_lock::PllLock;
pub use taken_bits::TakenBits;
