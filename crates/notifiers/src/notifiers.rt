//! The notifiers of all clocks.

ghost use Rattle.std.specs.Prelude.{◌≡◌, ℕ, ◌<◌, [], ◌∷◌, ◌++◌, map, replicate, length, slice_index_or, slice_set, List, IfOk, IfErr, OnOk, OnErr};
ghost use Rattle.clk_model.specs.State.{NotifierRow};
ghost use Rattle.clk_model.specs.Notices.{notifiers_of};
ghost use Rattle.notifiers.specs.declared.notifier.Notifier.{Notifier};

use crate::chain::{add, empty_chains, has_id, remove, with};
use crate::fault::ChainFault;
use crate::notifier::Notifier;
use clk_base::{ClockId, Policy, ValidDesc};
use clk_io::NoMemory;
use std::alloc::Global;
use std::marker::Model;
use std::mem::swap;

/// The notifiers of the clocks of a description.
///
/// To contracts they are a chain for each clock: its notifiers by falling priority, equals in the
/// order of adding.
#[derive(Drop)]
pub struct Notifiers {
    chains: Vec<Vec<Notifier>>,
}

impl Model for Notifiers {
    ghost use Rattle.std.specs.Prelude.{List, map};
    ghost use Rattle.notifiers.specs.declared.notifier.Notifier.{Notifier};

    ghost Value = { List (List Notifier) };

    ghost use Rattle.notifiers.specs.Chains.{AreChains};

    ghost view = { λ n. map (λ chain. chain.items) n.chains.items };

    ghost invariant = { λ n. AreChains (map (λ chain. chain.items) n.chains.items) };
}

/// A chain that was made for a clock. To contracts it is the list of its notifiers.
#[derive(Drop)]
pub struct Chain {
    notifiers: Vec<Notifier>,
}

impl Model for Chain {
    ghost use Rattle.std.specs.Prelude.{List};
    ghost use Rattle.notifiers.specs.declared.notifier.Notifier.{Notifier};

    ghost Value = { List Notifier };

    ghost use Rattle.notifiers.specs.Chains.{IsChain};

    ghost view = { λ chain. chain.notifiers.items };

    ghost invariant = { λ chain. IsChain chain.notifiers.items };
}

impl Notifiers {
    ghost use Rattle.notifiers.specs.Chains.{row_on, chain_of, AreChains, IsChain, IsWith, Tells, has_id, CanAdd, WhyNot, without_notifier};

    /// No clock of the description has a notifier. Want of memory is its one refusal.
    pub fn create(alloc: Global, desc: &ValidDesc) -> Result<Notifiers, NoMemory>
        ensures chains { IfOk result (λ made. made ≡ replicate (length desc.now.defs) []) }
        ensures told { IfOk result (λ made. Tells made []) }
        ensures kept { IfOk result (λ made. AreChains made) }
    {
        Ok(Notifiers {
            chains: empty_chains(alloc, desc.len())?,
        })
    }

    /// How many clocks have a chain. Takes no memory.
    pub fn len(&self) -> usize
        ensures len { result ≡ length self.now }
        ensures kept { AreChains self.now }
    {
        self.chains.len()
    }

    /// Adds a notifier to a clock. Refused where the clock has the id or 256 notifiers, and for
    /// want of memory.
    pub fn add(
        &mut self,
        c: ClockId,
        id: u32,
        priority: i32,
        policy: Policy,
    ) -> Result<(), ChainFault>
        requires { c.0 < length self.old }
        ensures told { (notifiers : List NotifierRow) → Tells self.old notifiers → OnOk result (Tells self.new (notifiers ++ record { clock = c.0; id = id; priority = priority; policy = policy } ∷ [])) }
        ensures can { OnOk result (CanAdd id (chain_of self.old c.0)) }
        ensures why { IfErr result (WhyNot id (chain_of self.old c.0)) }
        ensures err { OnErr result (self.new ≡ self.old) }
        ensures clocks { length self.new ≡ length self.old }
        ensures kept { AreChains self.new }
    {
        let notifier = Notifier {
            id,
            priority,
            policy,
        };
        add(&mut self.chains[c.0 as usize], notifier)
    }

    /// The chain of a clock with a notifier more, in its place. Refused as `add` refuses.
    pub fn chain_with(
        &self,
        alloc: Global,
        c: ClockId,
        notifier: Notifier,
    ) -> Result<Chain, ChainFault>
        ensures made { IfOk result (IsWith self.now (row_on c.0 notifier)) }
        ensures can { OnOk result (CanAdd notifier.id (chain_of self.now c.0)) }
        ensures why { IfErr result (WhyNot notifier.id (chain_of self.now c.0)) }
        ensures kept { IfOk result (λ made. IsChain made) }
    {
        Ok(Chain {
            notifiers: with(alloc, self.chain(c), notifier)?,
        })
    }

    /// The chain of a clock and another one change places.
    pub fn put_chain(&mut self, c: ClockId, chain: &mut Chain)
        requires { c.0 < length self.old }
        ensures put { self.new ≡ slice_set self.old c.0 chain.old }
        ensures before { chain.new ≡ slice_index_or self.old c.0 [] }
        ensures told { (notifiers : List NotifierRow) (n : Notifier) → IsWith self.old (row_on c.0 n) chain.old → Tells self.old notifiers → Tells self.new (notifiers ++ row_on c.0 n ∷ []) }
        ensures kept { AreChains self.new }
        ensures chain { IsChain chain.new }
    {
        swap(&mut self.chains[c.0 as usize], &mut chain.notifiers);
    }

    /// Takes the notifier of this id from a clock, and answers whether there was one.
    pub fn remove(&mut self, c: ClockId, id: u32) -> bool
        ensures had { result ≡ has_id id (chain_of self.old c.0) }
        ensures told { (notifiers : List NotifierRow) → Tells self.old notifiers → Tells self.new (without_notifier c.0 id notifiers) }
        ensures clocks { length self.new ≡ length self.old }
        ensures kept { AreChains self.new }
    {
        if self.chains.len() <= c.0 as usize {
            return false;
        }
        let chain = &mut self.chains[c.0 as usize];
        let had = has_id(chain, id);
        remove(chain, id);
        had
    }

    /// The notifiers of a clock, in the order in which they are told.
    pub fn chain(&self, c: ClockId) -> &[Notifier]
        ensures chain { result.now ≡ slice_index_or self.now c.0 [] }
        ensures told { (notifiers : List NotifierRow) → Tells self.now notifiers → map (row_on c.0) result.now ≡ notifiers_of notifiers c.0 }
        ensures kept { AreChains self.now }
    {
        match self.chains.get(c.0 as usize) {
            Some(chain) => chain.as_slice(),
            None => &[],
        }
    }
}
