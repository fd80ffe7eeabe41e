//! The chain of a plan.

ghost use Rattle.std.specs.Prelude.{◌≡◌, ◌<◌, ◌++◌, ◌∷◌, [], Some, length, slice_get, OnErr, OnOk};

use clk_base::ClockId;
use clk_io::NoMemory;
use std::alloc::Global;
use std::marker::Model;

/// A clock of a planned chain.
#[derive(Clone, Copy, Debug, PartialEq, Eq)]
pub struct ChainStep {
    pub clock: ClockId,
    /// The planned rate in Hz.
    pub rate: u64,
    /// The parent that the clock will have.
    pub parent: Option<ClockId>,
}

/// The step of a chain at a place.
pub fn step_at(chain: &[ChainStep], place: usize) -> ChainStep
    requires { place < length chain.now }
    ensures { slice_get chain.now place ≡ Some result }
{
    chain[place]
}

/// A planned chain from the clock of a request to the top, seen by contracts as the list of the
/// definitions' steps.
#[derive(Debug, Drop)]
pub struct PlannedChain {
    steps: Vec<ChainStep>,
}

impl Model for PlannedChain {
    ghost use Rattle.std.specs.Prelude.{List};
    ghost use Rattle.clk_model.specs.State as state;
    ghost use Rattle.clk_tree.specs.Plans.{chain_of};

    ghost Value = { List state.ChainStep };

    ghost view = { λ c. chain_of c.steps.items };
}

impl PlannedChain {
    ghost use Rattle.clk_tree.specs.Plans.{chain_of};

    /// No step. Takes no memory.
    pub fn none(alloc: Global) -> PlannedChain
        ensures { result ≡ [] }
    {
        PlannedChain {
            steps: Vec::new(alloc),
        }
    }

    /// No step any more. The list keeps its memory.
    pub fn clear(&mut self)
        ensures { self.new ≡ [] }
    {
        self.steps.clear();
    }

    /// A step behind these. Its one refusal is that memory runs out.
    pub fn push(&mut self, step: ChainStep) -> Result<(), NoMemory>
        ensures pushed { OnOk result (self.new ≡ self.old ++ chain_of (step ∷ [])) }
        ensures err { OnErr result (self.new ≡ self.old) }
    {
        self.steps.push(step)?;
        Ok(())
    }

    /// These steps as a chain. Takes no memory.
    pub fn new(steps: Vec<ChainStep>) -> PlannedChain
        ensures { result ≡ chain_of steps.items }
    {
        PlannedChain { steps }
    }

    /// The steps, from the clock of the request up.
    pub fn as_slice(&self) -> &[ChainStep]
        ensures { chain_of result.now ≡ self.now }
    {
        self.steps.as_slice()
    }
}
