//! Scripts of changes, the order of adoptions and that of the sweep, worked out by hand.

ghost use Rattle.std.specs.Prelude.{◌≡◌, ◌≤◌, length, false, IfOk};
ghost use Rattle.clk_tree.specs.Plans.{AreThere};

mod flagged;
mod rows;

use crate::clocks::{attach_all, bank_of, described, is_possible};
use change_walk::{StepList, script};
use clk_base::{ClockId, Micro, Notice, Policy, ValidDesc};
use clk_tree::{Plan, Tree, View};
use flagged::FLAGGED;
use notifiers::Notifiers;
use orphans::{adoptable, link_of};
use rate_planner::{Planning, plan_now, plan_parent};
use reg_bank::Bank;
use rows::ROWS;
use std::alloc::Global;
use std::process::Abort;
use std::test::Fail;
use unused_sweep::sweep_order;

// So many clocks, of which all are prepared or none is, without boundaries and exclusive holds.
#[derive(Clone, Copy, Drop)]
struct Still {
    clocks: usize,
    prepared: bool,
}

impl View for Still {
    ghost size = { λ v. v.clocks };

    ghost means = { λ v. record {
      low = λ c. 0;
      high = λ c. 18446744073709551615;
      guarded = λ c. false;
      prepared = λ c. v.prepared;
    } };

    fn bounds(&self, _c: ClockId) -> (u64, u64) {
        (0, u64::MAX)
    }

    fn guarded(&self, _c: ClockId) -> bool {
        false
    }

    fn prepared(&self, _c: ClockId) -> bool {
        self.prepared
    }
}

// A notice: its kind, the clock and the notifier, and the rates in Hz before and after.
type Told = (Notice, u32, u32, u64, u64);

// The notices at the head of a script and the steps behind them, what it weighs, and how many notices
// a timeout may bring.
type Script<'a> = (&'a [Told], &'a [Micro], u64, u64);

// Clocks that are registered in this order over three words of registers, their notifiers, and what
// follows: scripts of rates and of changes of parent, the parent that a registration would give, the
// adoptions that one brings, and the order of the sweep.
#[derive(Drop)]
struct Row<'a> {
    name: &'a str,
    clocks: &'a str,
    words: [u32; 3],
    links: &'a [(u32, Option<u32>)],
    notifiers: &'a [(u32, u32, i32, Policy)],
    seen: Still,
    sets: &'a [(u32, u64, Script<'a>)],
    moves: &'a [(u32, u32, Script<'a>)],
    parents: &'a [(u32, Option<u32>)],
    adopted: &'a [(u32, &'a [u32])],
    sweep: &'a [u32],
}

// Whether the first steps of a script are these notices.
fn tells(list: &StepList, told: &[Told]) -> bool {
    for k in 0..told.len() {
        let (kind, clock, id, old, new) = told[k];
        let notice = Micro::Notify {
            kind,
            clock: ClockId(clock),
            id,
            old,
            new,
        };
        if list.at(k) != Some(notice) {
            return false;
        }
    }
    true
}

// Whether the steps of a script from a place on are these, and no others.
fn goes_on(list: &StepList, place: usize, steps: &[Micro]) -> bool
    requires few { (place ≤ 100) × (length steps.now ≤ 100) }
{
    for k in 0..steps.len() {
        if list.at(place + k) != Some(steps[k]) {
            return false;
        }
    }
    list.len() == place + steps.len() && list.at(list.len()).is_none()
}

// The script of a plan is the one that is wanted.
fn expect_script(
    rt: &impl Abort,
    alloc: Global,
    desc: &ValidDesc,
    tree: &Tree,
    told: &Notifiers,
    row: &Row<'_>,
    plan: &Plan,
    wanted: Script<'_>,
) -> Result<(), Fail>
    requires made { desc.now.defs ≡ tree.now.defs }
    requires seen { row.now.seen.clocks ≡ length tree.now.defs }
    requires there { AreThere tree.now.clocks plan.now.rates }
{
    let mut list = StepList::none(alloc);
    script(&mut list, desc, tree, &row.seen, told, plan)?;
    let (notices, steps, weight, extra) = wanted;
    assert!(rt; notices.len() < 100 && steps.len() < 100);
    assert!(rt;
        tells(&list, notices) && goes_on(&list, notices.len(), steps),
        "{}",
        row.name
    );
    assert!(rt;
        list.weight() == weight && list.extra() == extra,
        "{}",
        row.name
    );
    Ok(())
}

// Each request for a rate has the script that the row says.
fn expect_sets<B: Bank>(
    rt: &impl Abort,
    alloc: Global,
    desc: &ValidDesc,
    tree: &Tree,
    bank: &B,
    told: &Notifiers,
    row: &Row<'_>,
) -> Result<(), Fail>
    requires made { desc.now.defs ≡ tree.now.defs }
    requires bank { desc.now.words ≤ B.size bank.now }
    requires seen { row.now.seen.clocks ≡ length tree.now.defs }
{
    let mut planning = Planning::none(alloc);
    for (clock, rate, wanted) in row.sets {
        let c = ClockId(*clock);
        assert!(rt; tree.registered(c));
        let found = plan_now(&mut planning, desc, tree, bank, &row.seen, c, *rate)?;
        assert!(rt; found, "{}", row.name);
        expect_script(rt, alloc, desc, tree, told, row, &planning.plan, *wanted)?;
    }
    Ok(())
}

// Each change of parent has the script that the row says.
fn expect_moves<B: Bank>(
    rt: &impl Abort,
    alloc: Global,
    desc: &ValidDesc,
    tree: &Tree,
    bank: &B,
    told: &Notifiers,
    row: &Row<'_>,
) -> Result<(), Fail>
    requires made { desc.now.defs ≡ tree.now.defs }
    requires bank { desc.now.words ≤ B.size bank.now }
    requires seen { row.now.seen.clocks ≡ length tree.now.defs }
{
    let mut planning = Planning::none(alloc);
    for (clock, parent, wanted) in row.moves {
        let (c, p) = (ClockId(*clock), ClockId(*parent));
        assert!(rt; tree.registered(c) && tree.registered(p));
        assert!(rt; (*clock as usize) < desc.len());
        assert!(rt; is_possible(desc, c, p) && tree.parent(c) != Some(p));
        plan_parent(&mut planning, desc, tree, bank, c, p)?;
        expect_script(rt, alloc, desc, tree, told, row, &planning.plan, *wanted)?;
    }
    Ok(())
}

// Whether a list has these clocks.
fn are(found: &[ClockId], wanted: &[u32]) -> bool {
    found.len() == wanted.len() && found.iter().zip(wanted).all(|(c, place)| c.0 == *place)
}

// Registrations give the parents and bring the adoptions that the row says, and the sweep has its order.
fn expect_orders<B: Bank>(
    rt: &impl Abort,
    alloc: Global,
    desc: &ValidDesc,
    tree: &Tree,
    bank: &B,
    row: &Row<'_>,
) -> Result<(), Fail>
    requires made { tree.now.defs ≡ desc.now.defs }
    requires bank { desc.now.words ≤ B.size bank.now }
{
    for (clock, parent) in row.parents {
        assert!(rt; (*clock as usize) < desc.len());
        let link = link_of(desc, tree, bank, ClockId(*clock));
        assert!(rt; link.map(|p| p.0) == *parent, "{}", row.name);
    }
    for (clock, wanted) in row.adopted {
        assert!(rt; (*clock as usize) < desc.len() && !tree.registered(ClockId(*clock)));
        let adopted = adoptable(alloc, desc, tree, bank, ClockId(*clock))?;
        assert!(rt; are(&adopted, wanted), "{}", row.name);
    }
    let order = sweep_order(alloc, tree)?;
    assert!(rt; are(&order, row.sweep), "{}", row.name);
    Ok(())
}

// The notifiers of a row are added in their order.
fn add_all(
    rt: &impl Abort,
    told: &mut Notifiers,
    desc: &ValidDesc,
    rows: &[(u32, u32, i32, Policy)],
) -> Result<(), Fail>
    requires { length told.old ≡ length desc.now.defs }
{
    for (clock, id, priority, policy) in rows {
        assert!(rt; (*clock as usize) < desc.len());
        told.add(ClockId(*clock), *id, *priority, *policy)?;
    }
    Ok(())
}

// Scripts and orders over this tree are those of the row.
fn expect_answers<B: Bank>(
    rt: &impl Abort,
    alloc: Global,
    desc: &ValidDesc,
    tree: &Tree,
    bank: &B,
    row: &Row<'_>,
) -> Result<(), Fail>
    requires made { desc.now.defs ≡ tree.now.defs }
    requires bank { desc.now.words ≤ B.size bank.now }
{
    assert!(rt; row.seen.clocks == desc.len());
    let mut told = Notifiers::create(alloc, desc)?;
    add_all(rt, &mut told, desc, row.notifiers)?;
    expect_sets(rt, alloc, desc, tree, bank, &told, row)?;
    expect_moves(rt, alloc, desc, tree, bank, &told, row)?;
    expect_orders(rt, alloc, desc, tree, bank, row)
}

// Scripts and orders over a tree of these clocks are those of the row.
fn expect_over<B: Bank>(
    rt: &impl Abort,
    alloc: Global,
    desc: &ValidDesc,
    bank: &B,
    row: &Row<'_>,
) -> Result<(), Fail>
    requires { desc.now.words ≤ B.size bank.now }
{
    let mut tree = Tree::create(alloc, desc)?;
    attach_all(rt, &mut tree, desc, bank, row.links);
    expect_answers(rt, alloc, desc, &tree, bank, row)
}

// Scripts and orders are those of the row.
fn expect_row(rt: &impl Abort, alloc: Global, row: &Row<'_>) -> Result<(), Fail> {
    let bank = bank_of(alloc, row.words)?;
    let desc = described(rt, alloc, row.clocks, 3)?;
    expect_over(rt, alloc, &desc, &bank, row)
}

#[test]
fn scripts_and_orders_are_as_worked_out(rt: HostRuntime) -> Result<(), Fail> {
    for row in &ROWS {
        expect_row(&rt, rt.alloc(), row)?;
    }
    Ok(())
}

#[test]
fn flagged_clocks_run_meanwhile(rt: HostRuntime) -> Result<(), Fail> {
    for row in &FLAGGED {
        expect_row(&rt, rt.alloc(), row)?;
    }
    Ok(())
}
