//! The walk of a plan, with the rates that come out.

ghost use Rattle.std.specs.Prelude.{◌≡◌, ◌&&◌, ◌-◌, ◌<◌, ℕ, true, false, [], ◌∷◌, drop, length, slice_index, take, IfSome, OnOk};
ghost use Rattle.std.specs.List.{All};
ghost use Rattle.clk_base.specs.Levels.{depth};
ghost use Rattle.clk_base.specs.Valid.{IsValid};
ghost use Rattle.clk_model.specs.Lists.{is_in, is_at};
ghost use Rattle.clk_model.specs.State.{registered};
ghost use Rattle.clk_model.specs.Tree.{children};
ghost use Rattle.clk_model.specs.Chain as chain;
ghost use Rattle.clk_model.specs.Walk.{below_within, kids_after, moves_away, top_of};
ghost use Rattle.clk_tree.specs.Plans.{AreThere, chain_of, step_of};
ghost use Rattle.rate_planner.specs.Chains.{IsThere};
ghost use Rattle.rate_planner.specs.Walks.{Walks, below_after, has_moves, kid_rate, move_after, stay_after};

use clk_base::{ClockId, depth};
use clk_io::NoMemory;
use clk_tree::{ChainStep, Tree, WalkRate, WalkRates, rate_of};
use reg_bank::Bank;

/// What a walk goes by: the steps of a chain, and the rates in Hz that come out for their clocks.
#[derive(Drop)]
struct Walker<'a, B: Bank> {
    tree: &'a Tree,
    bank: &'a B,
    steps: &'a [ChainStep],
    rates: &'a [u64],
    // Whether a step of the chain moves its clock.
    moving: bool,
}

// The rate of a clock below a parent of this rate, and whether the chain moves the clock to another
// parent. A clock of the chain has the rate that comes out, another that of its kind.
fn kid_rate<B: Bank>(walker: &Walker<B>, clock: ClockId, parent: u64) -> (u64, bool)
    requires valid { IsValid (B.size walker.now.bank.now) walker.now.tree.now.defs }
    requires sizes { length walker.now.rates.now ≡ length walker.now.steps.now }
    ensures rate { IfSome (B.contents walker.now.bank.now) (λ regs. result.0
        ≡ kid_rate walker.now.tree.now.defs regs (chain_of walker.now.steps.now) walker.now.rates.now clock.0 parent) }
    ensures moves { result.1 ≡ moves_away walker.now.tree.now.clocks (chain_of walker.now.steps.now) clock.0 }
{
    let count = walker.steps.len();
    let mut own: Option<u64> = None;
    let mut away = false;
    for done in 0..count {
        let place = count - 1 - done;
        let step = walker.steps[place];
        if step.clock.0 == clock.0 {
            own = Some(walker.rates[place]);
            away = away || walker.tree.moves(step);
        }
    }
    match own {
        Some(rate) => (rate, away),
        None => (rate_of(walker.tree, clock, walker.bank, parent), away),
    }
}

// Whether a step is of a clock that moves to this one.
fn moves_to(tree: &Tree, step: ChainStep, clock: ClockId) -> bool
    ensures { result ≡ (is_at clock.0 (step_of step).parent && chain.moves tree.now.clocks (step_of step)) }
{
    match step.parent {
        Some(parent) => parent.0 == clock.0 && tree.moves(step),
        None => false,
    }
}

// Whether a step of a chain moves its clock.
fn has_moves(tree: &Tree, steps: &[ChainStep]) -> bool
    ensures { result ≡ has_moves tree.now.clocks (chain_of steps.now) }
{
    for place in 0..steps.len() {
        if tree.moves(steps[place]) {
            return true;
        }
    }
    false
}

// Whether clocks may be below a clock after the plan: it has children, or some clock moves.
fn may_go_on<B: Bank>(walker: &Walker<B>, clock: ClockId) -> bool
    requires moving { walker.now.moving ≡ has_moves walker.now.tree.now.clocks (chain_of walker.now.steps.now) }
    ensures { result ≡ false
        → kids_after walker.now.tree.now.order walker.now.tree.now.clocks (chain_of walker.now.steps.now) clock.0 ≡ [] }
{
    walker.moving || walker.tree.first_child(clock).is_some()
}

// Adds all that will be below a clock of this rate, within so many levels.
#[cycle(walking)]
fn walk_below<B: Bank>(
    levels: u32,
    walker: &Walker<B>,
    clock: ClockId,
    rate: u64,
    into: &mut WalkRates,
) -> Result<(), NoMemory>
    requires valid { IsValid (B.size walker.now.bank.now) walker.now.tree.now.defs }
    requires sizes { length walker.now.rates.now ≡ length walker.now.steps.now }
    requires steps { All (IsThere walker.now.tree.now.clocks) walker.now.steps.now }
    requires moving { walker.now.moving ≡ has_moves walker.now.tree.now.clocks (chain_of walker.now.steps.now) }
    requires there { registered walker.now.tree.now.clocks clock.0 ≡ true }
    ensures walked { OnOk result (Walks (B.contents walker.now.bank.now) walker.now.tree.now.defs walker.now.tree.now
        (chain_of walker.now.steps.now) walker.now.rates.now clock.0 rate into.old into.new
        (below_after walker.now.tree.now.order walker.now.tree.now.clocks (chain_of walker.now.steps.now) levels clock.0)) }
    ensures there { OnOk result (AreThere walker.now.tree.now.clocks into.old → AreThere walker.now.tree.now.clocks into.new) }
{
    if levels == 0 {
        return Ok(());
    }
    stay_below(levels, walker, clock, rate, into)?;
    if !walker.moving {
        return Ok(());
    }
    move_below(levels, walker, clock, rate, into)
}

// Adds the children that stay with a clock of this rate, each with all that will be below it.
#[cycle(walking)]
fn stay_below<B: Bank>(
    levels: u32,
    walker: &Walker<B>,
    clock: ClockId,
    rate: u64,
    into: &mut WalkRates,
) -> Result<(), NoMemory>
    requires some { 0 < levels }
    requires valid { IsValid (B.size walker.now.bank.now) walker.now.tree.now.defs }
    requires sizes { length walker.now.rates.now ≡ length walker.now.steps.now }
    requires steps { All (IsThere walker.now.tree.now.clocks) walker.now.steps.now }
    requires moving { walker.now.moving ≡ has_moves walker.now.tree.now.clocks (chain_of walker.now.steps.now) }
    requires there { registered walker.now.tree.now.clocks clock.0 ≡ true }
    ensures walked { OnOk result (Walks (B.contents walker.now.bank.now) walker.now.tree.now.defs walker.now.tree.now
        (chain_of walker.now.steps.now) walker.now.rates.now clock.0 rate into.old into.new
        (stay_after walker.now.tree.now (chain_of walker.now.steps.now) levels
        (children walker.now.tree.now.order walker.now.tree.now.clocks clock.0))) }
    ensures there { OnOk result (AreThere walker.now.tree.now.clocks into.old → AreThere walker.now.tree.now.clocks into.new) }
{
    let mut at = walker.tree.first_child(clock);
    for _step in 0..walker.tree.len() {
        let Some(child) = at else { return Ok(()) };
        stay_one(levels, walker, rate, child, into)?;
        at = walker.tree.next_sibling(child);
    }
    Ok(())
}

// Adds a child of a clock of this rate with all that will be below it, if it stays.
#[cycle(walking)]
fn stay_one<B: Bank>(
    levels: u32,
    walker: &Walker<B>,
    rate: u64,
    child: ClockId,
    into: &mut WalkRates,
) -> Result<(), NoMemory>
    requires some { 0 < levels }
    requires valid { IsValid (B.size walker.now.bank.now) walker.now.tree.now.defs }
    requires sizes { length walker.now.rates.now ≡ length walker.now.steps.now }
    requires steps { All (IsThere walker.now.tree.now.clocks) walker.now.steps.now }
    requires moving { walker.now.moving ≡ has_moves walker.now.tree.now.clocks (chain_of walker.now.steps.now) }
    requires registered { registered walker.now.tree.now.clocks child.0 ≡ true }
    ensures walked { OnOk result ((clock : ℕ)
        → is_in child.0 (children walker.now.tree.now.order walker.now.tree.now.clocks clock) ≡ true
        → Walks (B.contents walker.now.bank.now) walker.now.tree.now.defs walker.now.tree.now
        (chain_of walker.now.steps.now) walker.now.rates.now clock rate into.old into.new
        (stay_after walker.now.tree.now (chain_of walker.now.steps.now) levels (child.0 ∷ []))) }
    ensures there { OnOk result (AreThere walker.now.tree.now.clocks into.old → AreThere walker.now.tree.now.clocks into.new) }
{
    let (own, away) = kid_rate(walker, child, rate);
    if away {
        return Ok(());
    }
    into.push(WalkRate {
        clock: child,
        rate: own,
    })?;
    if may_go_on(walker, child) {
        walk_below(levels - 1, walker, child, own, into)?;
    }
    Ok(())
}

// Adds the clocks that move to a clock of this rate, each with all that will be below it.
#[cycle(walking)]
fn move_below<B: Bank>(
    levels: u32,
    walker: &Walker<B>,
    clock: ClockId,
    rate: u64,
    into: &mut WalkRates,
) -> Result<(), NoMemory>
    requires some { 0 < levels }
    requires valid { IsValid (B.size walker.now.bank.now) walker.now.tree.now.defs }
    requires sizes { length walker.now.rates.now ≡ length walker.now.steps.now }
    requires steps { All (IsThere walker.now.tree.now.clocks) walker.now.steps.now }
    requires moving { walker.now.moving ≡ has_moves walker.now.tree.now.clocks (chain_of walker.now.steps.now) }
    requires there { registered walker.now.tree.now.clocks clock.0 ≡ true }
    ensures walked { OnOk result (Walks (B.contents walker.now.bank.now) walker.now.tree.now.defs walker.now.tree.now
        (chain_of walker.now.steps.now) walker.now.rates.now clock.0 rate into.old into.new
        (move_after walker.now.tree.now (chain_of walker.now.steps.now) levels (chain_of walker.now.steps.now) clock.0)) }
    ensures there { OnOk result (AreThere walker.now.tree.now.clocks into.old → AreThere walker.now.tree.now.clocks into.new) }
{
    for place in 0..walker.steps.len() {
        move_one(levels, walker, clock, rate, place, into)?;
    }
    Ok(())
}

// Adds the clock at a place of the chain with all that will be below it, if it moves to a clock of
// this rate.
#[cycle(walking)]
fn move_one<B: Bank>(
    levels: u32,
    walker: &Walker<B>,
    clock: ClockId,
    rate: u64,
    place: usize,
    into: &mut WalkRates,
) -> Result<(), NoMemory>
    requires some { 0 < levels }
    requires valid { IsValid (B.size walker.now.bank.now) walker.now.tree.now.defs }
    requires sizes { length walker.now.rates.now ≡ length walker.now.steps.now }
    requires steps { All (IsThere walker.now.tree.now.clocks) walker.now.steps.now }
    requires moving { walker.now.moving ≡ has_moves walker.now.tree.now.clocks (chain_of walker.now.steps.now) }
    requires there { registered walker.now.tree.now.clocks clock.0 ≡ true }
    requires place { place < length walker.now.steps.now }
    ensures walked { OnOk result (Walks (B.contents walker.now.bank.now) walker.now.tree.now.defs walker.now.tree.now
        (chain_of walker.now.steps.now) walker.now.rates.now clock.0 rate into.old into.new
        (move_after walker.now.tree.now (chain_of walker.now.steps.now) levels
        (take 1 (drop place (chain_of walker.now.steps.now))) clock.0)) }
    ensures there { OnOk result (AreThere walker.now.tree.now.clocks into.old → AreThere walker.now.tree.now.clocks into.new) }
{
    let step = walker.steps[place];
    if !moves_to(walker.tree, step, clock) {
        return Ok(());
    }
    let (own, _) = kid_rate(walker, step.clock, rate);
    into.push(WalkRate {
        clock: step.clock,
        rate: own,
    })?;
    if may_go_on(walker, step.clock) {
        walk_below(levels - 1, walker, step.clock, own, into)?;
    }
    Ok(())
}

/// The clocks of a plan's walk in its order with the rates that come out, if these come out for the
/// clocks of the chain, in place of those that stand there.
#[inline(always)]
pub(crate) fn walk_rates<B: Bank>(
    into: &mut WalkRates,
    tree: &Tree,
    bank: &B,
    steps: &[ChainStep],
    rates: &[u64],
) -> Result<(), NoMemory>
    requires valid { IsValid (B.size bank.now) tree.now.defs }
    requires sizes { length rates.now ≡ length steps.now }
    requires steps { All (IsThere tree.now.clocks) steps.now }
    requires some { 0 < length steps.now }
    ensures walked { OnOk result (Walks (B.contents bank.now) tree.now.defs tree.now (chain_of steps.now) rates.now
        (top_of (chain_of steps.now)) (slice_index rates.now (length rates.now - 1)) [] into.new
        (below_within (kids_after tree.now.order tree.now.clocks (chain_of steps.now)) depth (top_of (chain_of steps.now)))) }
    ensures there { OnOk result (AreThere tree.now.clocks into.new) }
{
    let last = steps.len() - 1;
    let top = steps[last].clock;
    let rate = rates[rates.len() - 1];
    into.clear();
    let walker = Walker {
        tree,
        bank,
        steps,
        rates,
        moving: has_moves(tree, steps),
    };
    into.push(WalkRate { clock: top, rate })?;
    if may_go_on(&walker, top) {
        walk_below(depth() - 1, &walker, top, rate, into)?;
    }
    Ok(())
}
