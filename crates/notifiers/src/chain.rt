//! The notifiers of one clock.

ghost use Rattle.std.specs.Prelude.{◌≡◌, ℕ, ◌==◌, [], not, map, filter, replicate, position, IfOk, IfErr, OnOk, OnErr};
ghost use Rattle.std.specs.List.{list_any};
ghost use Rattle.std.specs.Int.RustNames.{int_lt};
ghost use Rattle.clk_model.specs.Notices.{by_priority};
ghost use Rattle.notifiers.specs.Chains.{row_on, CanAdd, WhyNot};

use crate::fault::ChainFault;
use crate::notifier::Notifier;
use clk_io::NoMemory;
use std::alloc::Global;

/// The most notifiers that a clock may have.
const MOST: usize = 256;

/// So many chains without notifiers.
pub(crate) fn empty_chains(alloc: Global, clocks: usize) -> Result<Vec<Vec<Notifier>>, NoMemory>
    ensures { IfOk result (λ chains. map (λ chain. chain.items) chains.items ≡ replicate clocks []) }
{
    let mut chains = Vec::new(alloc);
    for _clock in 0..clocks {
        chains.push(Vec::new(alloc))?;
    }
    Ok(chains)
}

/// Whether a notifier of the chain has this id.
pub(crate) fn has_id(chain: &[Notifier], id: u32) -> bool
    ensures { result ≡ list_any (λ other. other.id == id) chain.now }
{
    chain.iter().any(|other| other.id == id)
}

// The first notifier of the chain with a lower priority.
fn first_below(chain: &[Notifier], notifier: Notifier) -> Option<usize>
    ensures { result ≡ position (λ m. int_lt m.priority notifier.priority) chain.now }
{
    chain
        .iter()
        .position(|other| other.priority < notifier.priority)
}

// Puts a notifier in its place in the chain, behind those of its own priority.
fn insert(chain: &mut Vec<Notifier>, notifier: Notifier) -> Result<(), ChainFault>
    ensures ok { (c : ℕ) → OnOk result (map (row_on c) chain.new.items ≡ by_priority (row_on c notifier) (map (row_on c) chain.old.items)) }
    ensures err { OnErr result (chain.new.items ≡ chain.old.items) }
    ensures memory { IfErr result (λ fault. fault ≡ ChainFault.NoMemory) }
{
    let place = first_below(chain, notifier).unwrap_or(chain.len());
    chain.insert(place, notifier)?;
    Ok(())
}

// Refuses an id that is there, and any in a chain that is full.
fn check(chain: &[Notifier], id: u32) -> Result<(), ChainFault>
    ensures can { (c : ℕ) → OnOk result (CanAdd id (map (row_on c) chain.now)) }
    ensures why { (c : ℕ) → IfErr result (WhyNot id (map (row_on c) chain.now)) }
{
    if has_id(chain, id) {
        return Err(ChainFault::Exists);
    }
    if chain.len() >= MOST {
        return Err(ChainFault::Full);
    }
    Ok(())
}

/// Adds a notifier to the chain, unless its id is there or the chain is full.
pub(crate) fn add(chain: &mut Vec<Notifier>, notifier: Notifier) -> Result<(), ChainFault>
    ensures ok { (c : ℕ) → OnOk result (map (row_on c) chain.new.items ≡ by_priority (row_on c notifier) (map (row_on c) chain.old.items)) }
    ensures can { (c : ℕ) → OnOk result (CanAdd notifier.id (map (row_on c) chain.old.items)) }
    ensures why { (c : ℕ) → IfErr result (WhyNot notifier.id (map (row_on c) chain.old.items)) }
    ensures err { OnErr result (chain.new.items ≡ chain.old.items) }
{
    check(chain, notifier.id)?;
    insert(chain, notifier)
}

/// A copy of the chain with a notifier more, unless its id is there or the chain is full.
pub(crate) fn with(
    alloc: Global,
    chain: &[Notifier],
    notifier: Notifier,
) -> Result<Vec<Notifier>, ChainFault>
    ensures made { (c : ℕ) → IfOk result (λ made. map (row_on c) made.items ≡ by_priority (row_on c notifier) (map (row_on c) chain.now)) }
    ensures can { (c : ℕ) → OnOk result (CanAdd notifier.id (map (row_on c) chain.now)) }
    ensures why { (c : ℕ) → IfErr result (WhyNot notifier.id (map (row_on c) chain.now)) }
{
    check(chain, notifier.id)?;
    let mut made = Vec::from_slice(alloc, chain)?;
    insert(&mut made, notifier)?;
    Ok(made)
}

/// Takes the notifier of this id out of the chain.
pub(crate) fn remove(chain: &mut Vec<Notifier>, id: u32)
    ensures { chain.new.items ≡ filter (λ n. not (n.id == id)) chain.old.items }
{
    chain.retain(|other| other.id != id);
}
