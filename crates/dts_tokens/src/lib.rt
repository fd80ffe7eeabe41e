//! The tokens of a device tree source: its words, strings and signs, each with its line.
//!
//! [`tokens`] cuts a source into tokens, blanks and comments, or tells the first place at which it
//! can't be cut. What tokens mean together is said by the crate above. [`word`] gives a token's own
//! text, and [`number_up_to`] the number that a word spells.
#![tactic(auto)]

mod characters;
mod flaw;
mod laws;
mod number;
mod piece;
mod reading;
mod scanning;
mod scope;
mod token;

pub use characters::{is_label_character, is_name_character};
pub use laws::one_reading;
pub use number::{is_number, number_up_to};
pub use reading::tokens;
pub use token::{Token, TokenFault, word};
