//! Fields of register words, as clock lines state them.

ghost use Rattle.std.specs.Prelude.{◌≡◌};
ghost use Rattle.clock_lines.specs.Kinds.{number, field_said};

use bundle_text::small_number_within;

/// A field of a word of the register bank.
#[derive(Clone, Copy)]
pub(crate) struct Field {
    pub(crate) word: u32,
    pub(crate) shift: u32,
    pub(crate) width: u32,
}

/// A number whose range isn't stated.
pub(crate) fn number(word: &str) -> Option<u32>
    ensures { result ≡ number word.now }
{
    small_number_within(0, u32::MAX, word)
}

/// The field that three words state, where they are numbers.
#[tactic(auto, unfolding(crate::specs::Kinds::field_said))]
pub(crate) fn field_said(word: &str, shift: &str, width: &str) -> Option<Field>
    ensures { result ≡ field_said word.now shift.now width.now }
{
    let word = number(word)?;
    let shift = number(shift)?;
    let width = number(width)?;
    Some(Field { word, shift, width })
}
