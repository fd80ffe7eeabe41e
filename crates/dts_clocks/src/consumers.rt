//! The consumers.

ghost use Rattle.std.specs.Prelude.{◌≡◌, ◌<◌, Some, None, map, length, IfOk, string_bytes};
ghost use Rattle.std.specs.Option.{option_map};
ghost use Rattle.dts_clocks.specs.Above.{path_of};
ghost use Rattle.dts_clocks.specs.Consumers.{seen_name, seen_consumer, clocks_in, name_at, named, names_of, consumer_of};

use crate::loaded::{Consumer, ConsumerName};
use crate::specifiers::Named;
use clk_base::ClockId;
use clk_io::NoMemory;
use dts_bindings::{Node, cells, is_consumer, texts, values};
use std::alloc::Global;

/// The clocks that the cells of a property name.
#[tactic(auto, unfolding(crate::specs::Consumers::clocks_in))]
pub(crate) fn clocks_in(
    alloc: Global,
    chart: &Named<'_>,
    name: &str,
    node: &Node<'_>,
) -> Result<Option<Vec<Option<ClockId>>>, NoMemory>
    ensures { IfOk result (λ clocks. option_map (λ v. v.items) clocks ≡ clocks_in chart.now name.now node.now) }
{
    let Some(cells) = cells(alloc, values(node, name))? else {
        return Ok(None);
    };
    let clocks = chart.clocks(alloc, &cells)?;
    Ok(clocks)
}

// The k-th string, else k in decimal.
fn name_at(alloc: Global, texts: &[&str], k: usize) -> Result<String, NoMemory>
    ensures { IfOk result (λ name. string_bytes name ≡ name_at (map (λ t. t.now) texts.now) k) }
{
    match texts.get(k) {
        Some(text) => Ok(String::from_str(alloc, text)?),
        None => match format!(in alloc; "{k}") {
            Ok(name) => Ok(name),
            Err(_) => Err(NoMemory),
        },
    }
}

// The clocks with their names.
fn named(
    alloc: Global,
    texts: &[&str],
    clocks: &[Option<ClockId>],
) -> Result<Vec<ConsumerName>, NoMemory>
    ensures { IfOk result (λ names. map seen_name names.items ≡ named (map (λ t. t.now) texts.now) 0 clocks.now) }
{
    let mut names = Vec::new(alloc);
    for k in 0..clocks.len() {
        let name = name_at(alloc, texts, k)?;
        names.push(ConsumerName {
            name,
            clock: clocks[k],
        })?;
    }
    Ok(names)
}

// A consumer's names. None where a specifier is bad, or names are left over.
#[tactic(auto, unfolding(crate::specs::Consumers::names_of))]
fn names_of(
    alloc: Global,
    chart: &Named<'_>,
    node: &Node<'_>,
) -> Result<Option<Vec<ConsumerName>>, NoMemory>
    ensures { IfOk result (λ names. option_map (λ v. map seen_name v.items) names ≡ names_of chart.now node.now) }
{
    let Some(clocks) = clocks_in(alloc, chart, "clocks", node)? else {
        return Ok(None);
    };
    let Some(texts) = texts(alloc, values(node, "clock-names"))? else {
        return Ok(None);
    };
    if texts.len() > clocks.len() {
        return Ok(None);
    }
    let names = named(alloc, &texts, &clocks)?;
    Ok(Some(names))
}

/// The consumer that a node is, if it is one. None where a specifier is bad, or names are left over.
#[tactic(auto, unfolding(crate::specs::Consumers::consumer_of))]
pub(crate) fn consumer_of(
    alloc: Global,
    chart: &Named<'_>,
    at: usize,
    node: &Node<'_>,
) -> Result<Option<Option<Consumer>>, NoMemory>
    requires { at < length chart.now }
    ensures { IfOk result (λ consumer. option_map (option_map seen_consumer) consumer ≡ consumer_of chart.now at node.now) }
{
    if !is_consumer(node) {
        return Ok(Some(None));
    }
    let Some(names) = names_of(alloc, chart, node)? else {
        return Ok(None);
    };
    let path = chart.path_of(alloc, at)?;
    Ok(Some(Some(Consumer { path, names })))
}
