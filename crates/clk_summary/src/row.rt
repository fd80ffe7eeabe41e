//! A row of the table as text.

ghost use Rattle.std.specs.Prelude.{◌≡◌, ◌++◌, ◌*◌, Some, codes, decimal, replicate};
ghost use Rattle.clk_model.specs.Summary.{left_in, right_in, spaces, switch_word};
ghost use Rattle.clk_summary.specs.Rows.{columns_of};

use clk_machine::Row;
use std::fmt;

/// How many places the name has.
const NAME_PLACES: usize = 32;

/// A row under the name of its clock, on a level of the tree from 0.
#[derive(Drop)]
pub(crate) struct RowText<'a> {
    pub(crate) level: u32,
    pub(crate) name: &'a str,
    pub(crate) row: Row,
}

impl<'a> fmt::Display for RowText<'a> {
    ghost output = { λ text. Some (columns_of text.level text.name.now text.row) };

    fn fmt<W: fmt::Write>(&self, f: &mut fmt::Formatter<W>) -> fmt::Result {
        let name = NameText {
            level: self.level,
            name: self.name,
        };
        let counts = CountsText(self.row);
        let switch = switch_text(self.row.on);
        write!(f, "{name}{counts}{switch}\n")
    }
}

// A name behind two spaces for each level, and in its places.
#[derive(Drop)]
struct NameText<'a> {
    level: u32,
    name: &'a str,
}

impl<'a> fmt::Display for NameText<'a> {
    ghost output = { λ text. Some (left_in 32 (spaces (2 * text.level) ++ text.name.now)) };

    #[tactic(auto, using(crate::proofs::Places::indented))]
    fn fmt<W: fmt::Write>(&self, f: &mut fmt::Formatter<W>) -> fmt::Result {
        let indent = 2 * self.level as usize;
        let rest = NAME_PLACES
            .saturating_sub(indent)
            .saturating_sub(self.name.len());
        write!(f, "{}{}{}", Spaces(indent), self.name, Spaces(rest))
    }
}

// So many spaces.
#[derive(Drop)]
struct Spaces(usize);

impl fmt::Display for Spaces {
    ghost output = { λ text. Some (spaces text.0) };

    fn fmt<W: fmt::Write>(&self, f: &mut fmt::Formatter<W>) -> fmt::Result {
        for _count in 0..self.0 {
            write!(f, " ")?;
        }
        Ok(())
    }
}

// The three counts of a row and its rate, each in its places.
#[derive(Drop)]
struct CountsText(Row);

impl fmt::Display for CountsText {
    ghost output = { λ text. Some (right_in 8 (decimal text.0.enable) ++ right_in 8 (decimal text.0.prepare) ++ right_in 8 (decimal text.0.protect) ++ right_in 21 (decimal text.0.rate)) };

    fn fmt<W: fmt::Write>(&self, f: &mut fmt::Formatter<W>) -> fmt::Result {
        let enable = Count(self.0.enable);
        let prepare = Count(self.0.prepare);
        let protect = Count(self.0.protect);
        let rate = Rate(self.0.rate);
        write!(f, "{enable}{prepare}{protect}{rate}")
    }
}

// A count in its places.
#[derive(Drop)]
struct Count(u32);

impl fmt::Display for Count {
    ghost output = { λ text. Some (right_in 8 (decimal text.0)) };

    #[tactic(auto, using(crate::proofs::Places::right_is))]
    fn fmt<W: fmt::Write>(&self, f: &mut fmt::Formatter<W>) -> fmt::Result {
        let count = self.0;
        write!(f, "{count:>8}")
    }
}

// A rate in its places.
#[derive(Drop)]
struct Rate(u64);

impl fmt::Display for Rate {
    ghost output = { λ text. Some (right_in 21 (decimal text.0)) };

    #[tactic(auto, using(crate::proofs::Places::right_is))]
    fn fmt<W: fmt::Write>(&self, f: &mut fmt::Formatter<W>) -> fmt::Result {
        let rate = self.0;
        write!(f, "{rate:>21}")
    }
}

// Whether a gate is open or a PLL powered, in its places.
fn switch_text(on: Option<bool>) -> &'static str
    ensures { result.now ≡ right_in 5 (switch_word on) }
{
    match on {
        None => "    -",
        Some(true) => "   on",
        Some(false) => "  off",
    }
}
