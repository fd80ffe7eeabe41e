//! The clocks that cells name.

ghost use Rattle.std.specs.Prelude.{◌≡◌, ◌<◌, ◌∷◌, Some, map, length, drop, slice_get, string_bytes, IfOk, IfSome};
ghost use Rattle.std.specs.Option.{option_map, option_and_then};
ghost use Rattle.dts_clocks.specs.Above.{is_passed, path_of};
ghost use Rattle.dts_clocks.specs.Clocks.{bindings_of, seen_bindings, clock_of, identified, clocks_named};
ghost use Rattle.dts_clocks.specs.References.{reference};

use crate::chart::Chart;
use crate::numbers::specifier_numbers;
use crate::reference::{Front, Reference, Specifier};
use clk_base::ClockId;
use clk_io::NoMemory;
use dts_bindings::{Binding, Node};
use dts_tree::Cell;
use std::alloc::Global;
use std::collections::HashMap;
use std::marker::Model;

/// The chart of a tree's nodes, with a table of the clock that each specifier names. A contract sees
/// the nodes.
#[derive(Drop)]
pub(crate) struct Named<'a> {
    chart: Chart<'a>,
    numbers: HashMap<Specifier, ClockId>,
}

impl<'a> Model for Named<'a> {
    ghost use Rattle.std.specs.Prelude.{◌≡◌, List};
    ghost use Rattle.std.specs.HashMap.{get};
    ghost use Rattle.dts_tree.specs.Tree.{SeenNode};
    ghost use Rattle.dts_clocks.specs.declared.reference.Specifier.{Specifier};
    ghost use Rattle.dts_clocks.specs.Clocks.{clock_of};
    ghost use Rattle.dts_clocks.specs.Heads.{same_specifier};

    ghost Value = { List SeenNode };

    ghost view = { λ named. named.chart };

    ghost invariant = { λ named. (s : Specifier) → get same_specifier named.numbers s ≡ clock_of named.chart s };
}

// A specifier whose cells end before a place, where it names a clock.
fn naming(clock: Option<ClockId>, behind: usize) -> Option<Front>
    ensures { result ≡ option_map (λ c. record { clock = Some c; behind = behind }) clock }
{
    match clock {
        Some(clock) => Some(Front {
            clock: Some(clock),
            behind,
        }),
        None => None,
    }
}

impl<'a> Named<'a> {
    /// The nodes of the chart, with the clocks of these bindings.
    pub(crate) fn new(
        alloc: Global,
        chart: Chart<'a>,
        bindings: &[Option<Binding>],
    ) -> Result<Named<'a>, NoMemory>
        requires { seen_bindings bindings.now ≡ bindings_of chart }
        ensures { IfOk result (λ named. named ≡ chart.entry) }
    {
        let numbers = specifier_numbers(alloc, &chart, bindings)?;
        Ok(Named { chart, numbers })
    }

    /// How many nodes there are.
    pub(crate) fn len(&self) -> usize
        ensures { result ≡ length self.now }
    {
        self.chart.len()
    }

    /// The node of a place.
    pub(crate) fn node(&self, at: usize) -> Node<'a>
        requires { at < length self.now }
        ensures { slice_get self.now at ≡ Some result }
    {
        self.chart.node(at)
    }

    /// The path of a node.
    pub(crate) fn path_of(&self, alloc: Global, at: usize) -> Result<String, NoMemory>
        requires { at < length self.now }
        ensures { IfOk result (λ path. string_bytes path ≡ path_of self.now at) }
    {
        self.chart.path_of(alloc, at)
    }

    /// Whether a node is passed over.
    pub(crate) fn is_passed(&self, at: usize) -> bool
        requires { at < length self.now }
        ensures { result ≡ is_passed self.now at }
    {
        self.chart.is_passed(at)
    }

    // What a cell refers to.
    fn reference(&self, cell: Cell) -> Reference
        ensures { result ≡ reference self.now cell }
    {
        self.chart.reference(cell)
    }

    // The clock that a specifier names.
    fn clock(&self, specifier: Specifier) -> Option<ClockId>
        ensures { result ≡ clock_of self.now specifier }
    {
        self.numbers.get(&specifier).copied()
    }

    // The clock of a provider that the cell of a place identifies.
    fn identified(&self, node: usize, cells: &[Cell], at: usize) -> Option<ClockId>
        ensures { result ≡ option_and_then (identified self.now node) (slice_get cells.now at) }
    {
        match cells.get(at) {
            Some(Cell::Number(identifier)) => self.clock(Specifier {
                node,
                identifier: Some(*identifier),
            }),
            Some(Cell::Node(_)) => None,
            None => None,
        }
    }

    // The specifier that begins at a place. None where it can't be read, or names no clock.
    fn front(&self, cells: &[Cell], at: usize) -> Option<Front>
        requires { at < length cells.now }
        ensures named { option_and_then (λ front. option_map (λ more. front.clock ∷ more) (clocks_named self.now (drop front.behind cells.now))) result
            ≡ clocks_named self.now (drop at cells.now) }
        ensures further { IfSome result (λ front. at < front.behind) }
    {
        let next = at + 1;
        match self.reference(cells[at]) {
            Reference::Null => Some(Front {
                clock: None,
                behind: next,
            }),
            Reference::Whole(node) => naming(
                self.clock(Specifier {
                    node,
                    identifier: None,
                }),
                next,
            ),
            Reference::Begun(node) => naming(self.identified(node, cells, next), next + 1),
            Reference::Lacking => None,
        }
    }

    /// The clocks that cells name one after another, a null as None. None where a specifier can't
    /// be read, or names no clock.
    pub(crate) fn clocks(
        &self,
        alloc: Global,
        cells: &[Cell],
    ) -> Result<Option<Vec<Option<ClockId>>>, NoMemory>
        ensures { IfOk result (λ clocks. option_map (λ v. v.items) clocks ≡ clocks_named self.now cells.now) }
    {
        let mut found = Vec::new(alloc);
        let mut at = 0;
        while at < cells.len() {
            let Some(front) = self.front(cells, at) else {
                return Ok(None);
            };
            found.push(front.clock)?;
            at = front.behind;
        }
        Ok(Some(found))
    }
}
