//! Numbers in cells, and bytes.

ghost use Rattle.std.specs.Prelude.{◌≡◌, ◌≤◌, ◌++◌, OnOk, IfErr};
ghost use Rattle.dts_tree.specs.Steps.{hex_value, bytes_of};

use super::{Reader, text_of};
use crate::fault::TreeFault;
use crate::mark::are_bytes;
use crate::rows::{Item, Numeral};
use dts_tokens::{Token, number_up_to};

// The value of a hexadecimal digit.
fn hex_value(byte: u8) -> u8
    ensures value { result ≡ hex_value byte }
    ensures digit { result ≤ 15 }
{
    match byte {
        b'0'..=b'9' => byte - b'0',
        b'a'..=b'f' => byte - b'a' + 10,
        b'A'..=b'F' => byte - b'A' + 10,
        _ => 0,
    }
}

// The bytes that pairs of digits write.
fn push_bytes(items: &mut Vec<Item>, word: &[u8]) -> Result<(), TreeFault>
    ensures pushed { OnOk result (items.new.items ≡ items.old.items ++ bytes_of word.now) }
    ensures err { IfErr result (λ e. e ≡ TreeFault.NoMemory) }
{
    let mut rest = word;
    while let [high, low, others @ ..] = rest {
        items.push(Item::Byte(16 * hex_value(*high) + hex_value(*low)))?;
        rest = others;
    }
    Ok(())
}

impl<'a> Reader<'a> {
    ghost use Rattle.dts_tree.specs.Done.{Does};
    ghost use Rattle.dts_tree.specs.State.{state_of};
    ghost use Rattle.dts_tree.specs.Steps.{cell, bytes};

    /// A number in cells.
    #[tactic(auto, unfolding(crate::specs::Steps::cell))]
    pub(super) fn cell(&mut self, text: &'a str, token: Token) -> Result<(), TreeFault>
        ensures { Does self.new result (cell text.now (state_of self.old) token) }
    {
        let Some(value) = number_up_to(u64::from(u32::MAX), text_of(text, token)) else {
            return Err(TreeFault::Syntax(token.line));
        };
        self.items.push(Item::Number(Numeral {
            value: value as u32,
            word: token,
        }))?;
        Ok(())
    }

    /// A word in bytes.
    #[tactic(auto, unfolding(crate::specs::Steps::bytes))]
    pub(super) fn bytes(&mut self, text: &'a str, token: Token) -> Result<(), TreeFault>
        ensures { Does self.new result (bytes text.now (state_of self.old) token) }
    {
        let word = text_of(text, token);
        if !are_bytes(word) {
            return Err(TreeFault::Syntax(token.line));
        }
        push_bytes(&mut self.items, word)
    }
}
