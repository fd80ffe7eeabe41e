//! Rounding and planning, worked out by hand.

ghost use Rattle.std.specs.Prelude.{◌≡◌, ◌≤◌, length, IfOk};

mod rows;

use crate::clocks::{attach_all, bank_of, described, is_possible};
use clk_base::{ClockId, ValidDesc};
use clk_tree::{ChainStep, Plan, Tree, View, WalkRate};
use rate_planner::{Planning, plan_now, plan_parent, round_now};
use reg_bank::Bank;
use rows::ROWS;
use std::alloc::Global;
use std::process::Abort;
use std::test::Fail;

// What planning is told of so many clocks: one has boundaries, and may be guarded or prepared.
#[derive(Clone, Copy, Drop)]
struct Seen {
    clocks: usize,
    one: u32,
    bounds: (u64, u64),
    guarded: bool,
    prepared: bool,
}

impl View for Seen {
    ghost use Rattle.std.specs.Prelude.{◌==◌, ◌&&◌, if◌then◌else◌};

    ghost size = { λ v. v.clocks };

    ghost means = { λ v. record {
      low = λ c. if c == v.one then v.bounds.0 else 0;
      high = λ c. if c == v.one then v.bounds.1 else 18446744073709551615;
      guarded = λ c. c == v.one && v.guarded;
      prepared = λ c. c == v.one && v.prepared;
    } };

    fn bounds(&self, c: ClockId) -> (u64, u64) {
        if c.0 == self.one {
            self.bounds
        } else {
            (0, u64::MAX)
        }
    }

    fn guarded(&self, c: ClockId) -> bool {
        c.0 == self.one && self.guarded
    }

    fn prepared(&self, c: ClockId) -> bool {
        c.0 == self.one && self.prepared
    }
}

// The steps of a chain: each clock with its planned rate and parent.
type Steps<'a> = &'a [(u32, u64, Option<u32>)];

// The clocks of a walk with their rates.
type Walked<'a> = &'a [(u32, u64)];

// Clocks that are registered in this order over three words of registers, what planning is told of
// them, and what it answers: roundings of rates, plans of rates, and plans of changes of parent.
#[derive(Drop)]
struct Row<'a> {
    name: &'a str,
    clocks: &'a str,
    words: [u32; 3],
    links: &'a [(u32, Option<u32>)],
    seen: Seen,
    rounds: &'a [(u32, u64, Option<u64>)],
    plans: &'a [(u32, u64, Option<(Steps<'a>, Walked<'a>)>)],
    moves: &'a [(u32, u32, Steps<'a>, Walked<'a>)],
}

// Whether a chain has these steps.
fn is_chain(chain: &[ChainStep], wanted: Steps<'_>) -> bool {
    chain.len() == wanted.len()
        && chain.iter().zip(wanted).all(|(step, (clock, rate, parent))| {
            step.clock.0 == *clock && step.rate == *rate && step.parent.map(|p| p.0) == *parent
        })
}

// Whether a walk has these clocks with these rates.
fn is_walk(walk: &[WalkRate], wanted: Walked<'_>) -> bool {
    walk.len() == wanted.len()
        && walk.iter().zip(wanted).all(|(one, (clock, rate))| one.clock.0 == *clock
            && one.rate == *rate)
}

// The plan has these steps and this walk.
fn expect_plan(rt: &impl Abort, plan: &Plan, steps: Steps<'_>, walked: Walked<'_>) {
    assert!(rt; is_chain(plan.chain.as_slice(), steps));
    assert!(rt; is_walk(plan.rates.as_slice(), walked));
}

// Each rate rounds to what the row says.
fn expect_rounds<B: Bank>(rt: &impl Abort, desc: &ValidDesc, tree: &Tree, bank: &B, row: &Row<'_>)
    requires made { desc.now.defs ≡ tree.now.defs }
    requires seen { row.now.seen.clocks ≡ length tree.now.defs }
{
    for (clock, rate, rounded) in row.rounds {
        let c = ClockId(*clock);
        assert!(rt; tree.registered(c));
        assert!(rt;
            round_now(desc, tree, bank, &row.seen, c, *rate) == *rounded,
            "{}",
            row.name
        );
    }
}

// Each request for a rate has the plan that the row says, or none.
fn expect_plans<B: Bank>(
    rt: &impl Abort,
    alloc: Global,
    desc: &ValidDesc,
    tree: &Tree,
    bank: &B,
    row: &Row<'_>,
) -> Result<(), Fail>
    requires made { desc.now.defs ≡ tree.now.defs }
    requires bank { desc.now.words ≤ B.size bank.now }
    requires seen { row.now.seen.clocks ≡ length tree.now.defs }
{
    let mut planning = Planning::none(alloc);
    for (clock, rate, wanted) in row.plans {
        let c = ClockId(*clock);
        assert!(rt; tree.registered(c));
        let found = plan_now(&mut planning, desc, tree, bank, &row.seen, c, *rate)?;
        assert!(rt; found == wanted.is_some());
        if let Some((steps, walked)) = wanted {
            expect_plan(rt, &planning.plan, steps, walked);
        }
    }
    Ok(())
}

// Each change of parent has the plan that the row says.
fn expect_moves<B: Bank>(
    rt: &impl Abort,
    alloc: Global,
    desc: &ValidDesc,
    tree: &Tree,
    bank: &B,
    row: &Row<'_>,
) -> Result<(), Fail>
    requires made { desc.now.defs ≡ tree.now.defs }
    requires bank { desc.now.words ≤ B.size bank.now }
{
    let mut planning = Planning::none(alloc);
    for (clock, parent, steps, walked) in row.moves {
        let (c, p) = (ClockId(*clock), ClockId(*parent));
        assert!(rt; tree.registered(c) && tree.registered(p));
        assert!(rt; (*clock as usize) < desc.len());
        assert!(rt; is_possible(desc, c, p) && tree.parent(c) != Some(p));
        plan_parent(&mut planning, desc, tree, bank, c, p)?;
        expect_plan(rt, &planning.plan, steps, walked);
    }
    Ok(())
}

// Planning over this tree answers as the row says.
fn expect_answers<B: Bank>(
    rt: &impl Abort,
    alloc: Global,
    desc: &ValidDesc,
    tree: &Tree,
    bank: &B,
    row: &Row<'_>,
) -> Result<(), Fail>
    requires made { desc.now.defs ≡ tree.now.defs }
    requires bank { desc.now.words ≤ B.size bank.now }
{
    assert!(rt; row.seen.clocks == desc.len());
    expect_rounds(rt, desc, tree, bank, row);
    expect_plans(rt, alloc, desc, tree, bank, row)?;
    expect_moves(rt, alloc, desc, tree, bank, row)
}

// Planning over a tree of these clocks answers as the row says.
fn expect_over<B: Bank>(
    rt: &impl Abort,
    alloc: Global,
    desc: &ValidDesc,
    bank: &B,
    row: &Row<'_>,
) -> Result<(), Fail>
    requires { desc.now.words ≤ B.size bank.now }
{
    let mut tree = Tree::create(alloc, desc)?;
    attach_all(rt, &mut tree, desc, bank, row.links);
    expect_answers(rt, alloc, desc, &tree, bank, row)
}

// Planning answers as the row says.
fn expect_row(rt: &impl Abort, alloc: Global, row: &Row<'_>) -> Result<(), Fail> {
    let bank = bank_of(alloc, row.words)?;
    let desc = described(rt, alloc, row.clocks, 3)?;
    expect_over(rt, alloc, &desc, &bank, row)
}

#[test]
fn planning_answers_as_worked_out(rt: HostRuntime) -> Result<(), Fail> {
    for row in &ROWS {
        expect_row(&rt, rt.alloc(), row)?;
    }
    Ok(())
}
