//! Properties, from their names to their ends.

ghost use Rattle.std.specs.Prelude.{◌≡◌, drop};
ghost use Rattle.std.specs.List.{list_all};
ghost use Rattle.dts_tree.specs.Grown.{is_cells, only_number};

use super::{Reader, text_of};
use crate::fault::TreeFault;
use crate::mark::is_plain_name;
use crate::names::note;
use crate::rows::{Begun, Item, Numeral, Phase, PropertyRow, ValueRow};
use dts_tokens::Token;

// Each value is cells.
fn are_cells(values: &[ValueRow]) -> bool
    ensures { result ≡ list_all is_cells values.now }
{
    values
        .iter()
        .all(|value| matches!(value, ValueRow::Cells(_)))
}

// The only number of these items, if they are one number.
fn only_number(items: &[Item]) -> Option<Numeral>
    ensures { result ≡ only_number items.now }
{
    match items {
        [Item::Number(number)] => Some(*number),
        _ => None,
    }
}

// The elements from a place on; none past the end.
fn behind<T>(rows: &[T], from: usize) -> &[T]
    ensures { result.now ≡ drop from rows.now }
{
    let from = from.min(rows.len());
    &rows[from..]
}

impl<'a> Reader<'a> {
    ghost use Rattle.dts_tree.specs.Done.{Does, Fills};
    ghost use Rattle.dts_tree.specs.Grown.{phandle_of, add_phandle, begun, end_property};
    ghost use Rattle.dts_tree.specs.State.{state_of};
    ghost use Rattle.dts_tree.specs.Steps.{open_property, finish, bare, begin};

    // The number of a property `phandle` whose cells are one number.
    #[tactic(auto, unfolding(crate::specs::Grown::phandle_of))]
    fn phandle(&self, text: &str, property: Begun) -> Option<Numeral>
        ensures { result ≡ phandle_of text.now property (state_of self.now).tables }
    {
        let named = text_of(text, property.name) == b"phandle".as_slice();
        if named && are_cells(behind(&self.values, property.values)) {
            only_number(behind(&self.items, property.items))
        } else {
            None
        }
    }

    // Takes a phandle, if there is one.
    fn take_phandle(&mut self, found: Option<Numeral>) -> Result<(), TreeFault>
        ensures { Fills self.old self.new result (add_phandle found (state_of self.old).tables) }
    {
        let Some(number) = found else {
            return Ok(());
        };
        if self.phandles.contains(&number.value) {
            return Err(TreeFault::TwiceDefined(number.word.line));
        }
        self.phandles.insert(number.value)?;
        Ok(())
    }

    /// The end of a property.
    #[tactic(auto, unfolding(crate::specs::Steps::finish, crate::specs::Grown::end_property))]
    pub(super) fn finish(&mut self, text: &'a str, property: Begun) -> Result<(), TreeFault>
        ensures { Does self.new result (finish text.now property (state_of self.old)) }
    {
        let found = self.phandle(text, property);
        self.take_phandle(found)?;
        self.properties.push(PropertyRow {
            node: self.here,
            name: property.name,
            from: property.values,
            to: self.values.len(),
        })?;
        self.pending.clear();
        self.phase = Phase::Ready;
        Ok(())
    }

    // The name of a property.
    #[tactic(auto, unfolding(crate::specs::Steps::open_property, crate::specs::Grown::add_name))]
    fn open_property(&mut self, text: &'a str, name: Token, token: Token) -> Result<(), TreeFault>
        ensures { Fills self.old self.new result (open_property text.now name (state_of self.old) token) }
    {
        let word = text_of(text, name);
        if !is_plain_name(word) {
            return Err(TreeFault::Syntax(token.line));
        }
        note(&mut self.named, self.here, word, name.line)
    }

    // The property that begins with this name.
    fn begun(&self, name: Token) -> Begun
        ensures { result ≡ begun name (state_of self.now).tables }
    {
        Begun {
            name,
            values: self.values.len(),
            items: self.items.len(),
        }
    }

    /// A property without a value.
    #[tactic(auto, unfolding(crate::specs::Steps::bare))]
    pub(super) fn bare(&mut self, text: &'a str, name: Token, token: Token) -> Result<(), TreeFault>
        ensures { Does self.new result (bare text.now name (state_of self.old) token) }
    {
        self.open_property(text, name, token)?;
        self.phase = Phase::Ready;
        self.finish(text, self.begun(name))
    }

    /// A property with values.
    #[tactic(auto, unfolding(crate::specs::Steps::begin))]
    pub(super) fn begin(
        &mut self,
        text: &'a str,
        name: Token,
        token: Token,
    ) -> Result<(), TreeFault>
        ensures { Does self.new result (begin text.now name (state_of self.old) token) }
    {
        self.open_property(text, name, token)?;
        self.phase = Phase::Wanting(self.begun(name));
        Ok(())
    }
}
