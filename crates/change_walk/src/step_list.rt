//! A script that was made.

ghost use Rattle.std.specs.Prelude.{◌≡◌, [], false, length, slice_get};

use crate::changes::{Changed, Passed};
use clk_base::Micro;
use std::alloc::Global;
use std::marker::Model;
use std::mem::replace;

/// The script of a change, with what it weighs. Its lists keep their memory from script to script, so
/// that one as long as an earlier one takes none.
#[derive(Debug, Drop)]
pub struct StepList {
    pub(crate) steps: Vec<Micro>,
    pub(crate) vetoed: bool,
    /// The clocks whose rates change, if a clock of the walk has a notifier.
    pub(crate) changed: Vec<Changed>,
    /// The clocks that the search for them has passed.
    pub(crate) passed: Vec<Passed>,
    pub(crate) extra: u64,
    pub(crate) weight: u64,
}

impl Model for StepList {
    ghost use Rattle.change_walk.specs.Given.{Script};

    ghost Value = { Script };

    ghost view = { λ l. record {
      steps = l.steps.items;
      vetoed = l.vetoed;
      extra = l.extra;
      weight = l.weight;
    } };
}

impl StepList {
    /// No step. Takes no memory.
    pub fn none(alloc: Global) -> StepList
        ensures { result ≡ record { steps = []; vetoed = false; extra = 0; weight = 0 } }
    {
        StepList {
            steps: Vec::new(alloc),
            vetoed: false,
            changed: Vec::new(alloc),
            passed: Vec::new(alloc),
            extra: 0,
            weight: 0,
        }
    }

    /// The number of steps.
    pub fn len(&self) -> usize
        ensures { result ≡ length self.now.steps }
    {
        self.steps.len()
    }

    /// The k-th step, from 0.
    pub fn at(&self, k: usize) -> Option<Micro>
        ensures { result ≡ slice_get self.now.steps k }
    {
        if k < self.steps.len() {
            Some(self.steps[k])
        } else {
            None
        }
    }

    /// Takes the steps out. Takes no memory.
    pub fn take_steps(&mut self, alloc: Global) -> Vec<Micro>
        ensures steps { result.items ≡ self.old.steps }
        ensures rest { self.new ≡ record self.old { steps = [] } }
    {
        replace(&mut self.steps, Vec::new(alloc))
    }

    /// Keeps the memory of this list for later scripts.
    pub fn keep_memory(&mut self, steps: Vec<Micro>)
        ensures steps { self.new ≡ record self.old { steps = [] } }
    {
        self.steps = steps;
        self.steps.clear();
    }

    /// How many entries the steps may come to, each with what it may put in front of it, and with the
    /// notices that a timeout may bring.
    pub fn weight(&self) -> u64
        ensures { result ≡ self.now.weight }
    {
        self.weight
    }

    /// Whether a notice vetoes the change.
    pub fn vetoed(&self) -> bool
        ensures { result ≡ self.now.vetoed }
    {
        self.vetoed
    }

    /// How many notices a timeout may bring: of a change of parent that raises PLLs those to all
    /// notifiers of the changed clocks, of another none.
    pub fn extra(&self) -> u64
        ensures { result ≡ self.now.extra }
    {
        self.extra
    }
}
