//! A change in flight.

ghost use Rattle.std.specs.Prelude.{◌≡◌, ℕ, false, Some, List, OnOk, OnErr, slice_get, map};
ghost use Rattle.std.specs.Option.{option_map};
ghost use Rattle.clk_base.specs.declared.call.Micro.{Micro};
ghost use Rattle.clk_model.specs.State.{NotifierRow, Change};
ghost use Rattle.clk_model.specs.Laws.Paced.{is_notice};
ghost use Rattle.clk_model.specs.Lists.{is_in};
ghost use Rattle.clk_model.specs.Step.{todo};
ghost use Rattle.clk_flight.specs.Begun.{begun, StartsAs};
ghost use Rattle.clk_flight.specs.Fronts.{is_posts, post_to};
ghost use Rattle.clk_flight.specs.Flights.{IsChange, own_step, comes_next, fall_or_abort};
ghost use Rattle.clk_flight.specs.Steps.{is_fall};
ghost use Rattle.notifiers.specs.Chains.{Tells, row_on};

use crate::front::{Front, abort_of};
use crate::raised::Raised;
use crate::script::{Script, room_for};
use crate::start::Start;
use clk_base::{ClockId, Micro, Notice, Sleeping};
use clk_io::NoMemory;
use notifiers::{Notifier, Notifiers};
use std::alloc::Global;
use std::marker::Model;

mod steps;

/// What is kept of the call that goes on, if there is one.
///
/// To contracts a flight is a `FlightState`. No call but `begin` takes memory.
#[derive(Drop)]
pub struct Flight {
    going: bool,
    driver: u32,
    call: Sleeping,
    script: Script,
    front: Front,
    /// How often the raise or lower in front has come again.
    again: u32,
    raised: Raised,
    range: Option<(u64, u64)>,
    /// How many notices at the head of the script a timeout still calls off.
    extra: usize,
    vetoed: bool,
    timed_out: bool,
    /// The clock that isn't set after a timeout. Its visit comes all the same.
    missed: Option<ClockId>,
    /// The greatest number of PLLs on a line of possible parents.
    plls: u32,
}

impl Model for Flight {
    ghost use Rattle.clk_flight.specs.Flights.{FlightState};

    ghost Value = { FlightState };

    ghost use Rattle.clk_flight.specs.Inside.{flight_of, IsSound};

    ghost view = { flight_of };

    ghost invariant = { IsSound };
}

// The notice that a clock's rate has changed, to the notifier at a place of its chain.
fn post(chain: &[Notifier], clock: ClockId, told: usize, old: u64, new: u64) -> Option<Micro>
    ensures { (rows : List NotifierRow) → map (row_on clock.0) chain.now ≡ rows → result ≡ option_map (post_to clock old new) (slice_get rows told) }
{
    match chain.get(told) {
        Some(notifier) => Some(Micro::Notify {
            kind: Notice::Post,
            clock,
            id: notifier.id,
            old,
            new,
        }),
        None => None,
    }
}

// The fall of the PLL that was raised last, or else the notice at a place of the script, as one that
// the change is called off.
fn fall_or_abort(script: &Script, told: usize, raised: &Raised) -> Option<Micro>
    ensures { result ≡ fall_or_abort script.now.whole told raised.now.plls }
{
    if let Some(pll) = raised.last() {
        return Some(Micro::Fall(pll));
    }
    match script.at_place(told) {
        Some(step) => abort_of(step),
        None => None,
    }
}

impl Flight {
    /// No change is in flight.
    pub fn create(alloc: Global) -> Flight
        ensures quiet { result.going ≡ false }
    {
        Flight {
            going: false,
            driver: 0,
            call: Sleeping::Sweep,
            script: Script::new(alloc),
            front: Front::Empty,
            again: 0,
            raised: Raised::new(alloc),
            range: None,
            extra: 0,
            vetoed: false,
            timed_out: false,
            missed: None,
            plls: 0,
        }
    }

    /// A call goes on, over a description whose lines of possible parents have at most so many PLLs.
    /// All memory that its steps need is taken now. The list of the steps before is given back, so that
    /// its memory can be used again. Want of memory is its one refusal.
    #[inline(always)]
    pub fn begin(&mut self, start: Start, plls: u32) -> Result<Vec<Micro>, NoMemory>
        ensures begun { OnOk result (self.new ≡ begun start plls) }
        ensures change { (notifiers : List NotifierRow) (k : Change) → StartsAs notifiers start k → OnOk result (IsChange notifiers self.new k) }
        ensures err { OnErr result (self.new ≡ self.old) }
    {
        let Some(room) = room_for(&start.script, plls) else {
            return Err(NoMemory);
        };
        self.raised.start(room)?;
        let before = self.script.begin(start.script);
        self.going = true;
        self.driver = start.driver;
        self.call = start.call;
        self.front = Front::Empty;
        self.again = 0;
        self.range = start.range;
        self.extra = start.extra;
        self.vetoed = start.vetoed;
        self.timed_out = false;
        self.missed = None;
        self.plls = plls;
        Ok(before)
    }

    /// The step that comes next, while a change is in flight.
    pub fn next(&self, notifiers: &Notifiers) -> Option<Micro>
        ensures step { (rows : List NotifierRow) → Tells notifiers.now rows → result ≡ comes_next rows self.now }
        ensures untold { is_posts self.now.front ≡ false → (rows : List NotifierRow) → result ≡ comes_next rows self.now }
        ensures own { (m : Micro) → result ≡ Some m → is_notice m ≡ false → is_fall m ≡ false → own_step self.now ≡ Some m }
        ensures first { (rows : List NotifierRow) (k : Change) → Tells notifiers.now rows → IsChange rows self.now k → result ≡ slice_get (todo k) 0 }
    {
        if !self.going {
            return None;
        }
        match self.front {
            Front::Empty => self.script.first(),
            Front::Poll { pll, .. } => Some(Micro::Poll(pll)),
            Front::Raise(x) => Some(Micro::Raise(x)),
            Front::Lower(x) => Some(Micro::Lower(x)),
            Front::Falls { told, .. } => fall_or_abort(&self.script, told, &self.raised),
            Front::Posts {
                clock,
                told,
                old,
                new,
                ..
            } => post(notifiers.chain(clock), clock, told, old, new),
        }
    }

    /// Whether a change is in flight.
    pub fn going(&self) -> bool
        ensures { result ≡ self.now.going }
    {
        self.going
    }

    /// The driver whose call goes on.
    pub fn driver(&self) -> u32
        ensures { result ≡ self.now.driver }
    {
        self.driver
    }

    /// The call that goes on.
    pub fn call(&self) -> Sleeping
        ensures { result ≡ self.now.call }
    {
        self.call
    }

    /// Whether the call has raised a PLL that nothing holds yet.
    pub fn has_raised(&self, pll: ClockId) -> bool
        ensures { result ≡ is_in pll.0 self.now.raised }
    {
        self.raised.contains(pll)
    }

    /// The least and the greatest rate in Hz that the handle allowed before the call, where it sets
    /// them.
    pub fn range(&self) -> Option<(u64, u64)>
        ensures { result ≡ self.now.range }
    {
        self.range
    }

    /// Whether a notice before the change was a veto.
    pub fn vetoed(&self) -> bool
        ensures { result ≡ self.now.vetoed }
    {
        self.vetoed
    }

    /// Whether a poll has timed out.
    pub fn timed_out(&self) -> bool
        ensures { result ≡ self.now.timed_out }
    {
        self.timed_out
    }

    /// The clock that isn't set after a timeout.
    pub fn missed(&self) -> Option<ClockId>
        ensures { option_map (λ c. c.0) result ≡ self.now.missed }
    {
        self.missed
    }
}
