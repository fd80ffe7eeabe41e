//! Rates by the registers.

ghost use Rattle.std.specs.Prelude.{◌≡◌, ℕ, ◌+◌, ◌<◌, ◌≤◌, true, false, List, [], flat_map, length, slice_index, IfSome};
ghost use Rattle.std.specs.Option.{option_map_or};
ghost use Rattle.clk_base.specs.Description.{kind_of};
ghost use Rattle.clk_base.specs.Valid.{IsValid};
ghost use Rattle.clk_model.specs.Lists.{is_in};
ghost use Rattle.clk_model.specs.Rate.{rate_over};
ghost use Rattle.clk_model.specs.Walk.{below_within};
ghost use Rattle.clk_tree.specs.Refreshed.{AreKidRings, AreOver};

use crate::group::count_of;
use crate::kind::rate_over;
use crate::ring::Ring;
use clk_base::{ClockId, ValidDesc};
use reg_bank::Bank;

/// The rate of the clock that a link leads to, and 0 without one.
pub(crate) fn rate_behind(rates: &[u64], link: Option<ClockId>) -> u64
    requires { IfSome link (λ p. p.0 < length rates.now) }
    ensures { result ≡ option_map_or (λ p. slice_index rates.now p.0) link 0 }
{
    match link {
        Some(parent) => rates[parent.0 as usize],
        None => 0,
    }
}

// Whether a clock has children, of so many clocks.
fn has_kids(count: u32, siblings: &Ring, clock: ClockId) -> bool
    requires few { count ≤ 4096 }
    requires rings { length siblings.now ≡ count + count + 2 }
    requires place { clock.0 < count }
    ensures some { (kids : ℕ → List ℕ) → AreKidRings count siblings.now kids → result ≡ true → 0 < length (kids clock.0) }
    ensures none { (kids : ℕ → List ℕ) → AreKidRings count siblings.now kids → result ≡ false → kids clock.0 ≡ [] }
{
    siblings.after(count + clock.0) < count
}

// Computes the rate of a clock over this rate of its parent, and the rates of the clocks below it,
// within so many levels, at least one. Other rates stay.
#[cycle(refreshing)]
fn refresh_kid<B: Bank>(
    levels: u32,
    desc: &ValidDesc,
    siblings: &Ring,
    bank: &B,
    clock: ClockId,
    parent: u64,
    rates: &mut [u64],
)
    requires some { 0 < levels }
    requires valid { IsValid (B.size bank.now) desc.now.defs }
    requires rings { length siblings.now ≡ length desc.now.defs + length desc.now.defs + 2 }
    requires place { clock.0 < length desc.now.defs }
    requires rated { length rates.old ≡ length desc.now.defs }
    ensures rated { length rates.new ≡ length rates.old }
    ensures below { IfSome (B.contents bank.now) (λ regs. (kids : ℕ → List ℕ) (rate : ℕ → ℕ)
        → AreKidRings (length desc.now.defs) siblings.now kids → AreOver desc.now.defs regs kids rate
        → rate clock.0 ≡ rate_over (kind_of desc.now.defs clock.0) regs parent
        → (k : ℕ) → is_in k (below_within kids levels clock.0) ≡ true → slice_index rates.new k ≡ rate k) }
    ensures others { (kids : ℕ → List ℕ) → AreKidRings (length desc.now.defs) siblings.now kids
        → (k : ℕ) → is_in k (below_within kids levels clock.0) ≡ false → slice_index rates.new k ≡ slice_index rates.old k }
{
    let rate = rate_over(desc, clock, bank, parent);
    rates[clock.0 as usize] = rate;
    if has_kids(count_of(desc), siblings, clock) {
        refresh_kids(levels - 1, desc, siblings, bank, clock, rate, rates);
    }
}

// Computes the rates of the clocks below a clock of this rate, within so many levels. Other rates stay.
#[cycle(refreshing)]
fn refresh_kids<B: Bank>(
    levels: u32,
    desc: &ValidDesc,
    siblings: &Ring,
    bank: &B,
    clock: ClockId,
    rate: u64,
    rates: &mut [u64],
)
    requires valid { IsValid (B.size bank.now) desc.now.defs }
    requires rings { length siblings.now ≡ length desc.now.defs + length desc.now.defs + 2 }
    requires place { clock.0 < length desc.now.defs }
    requires rated { length rates.old ≡ length desc.now.defs }
    ensures rated { length rates.new ≡ length rates.old }
    ensures below { IfSome (B.contents bank.now) (λ regs. (kids : ℕ → List ℕ) (rates_below : ℕ → ℕ)
        → AreKidRings (length desc.now.defs) siblings.now kids → AreOver desc.now.defs regs kids rates_below
        → rates_below clock.0 ≡ rate
        → (k : ℕ) → is_in k (flat_map (below_within kids levels) (kids clock.0)) ≡ true → slice_index rates.new k ≡ rates_below k) }
    ensures others { (kids : ℕ → List ℕ) → AreKidRings (length desc.now.defs) siblings.now kids
        → (k : ℕ) → is_in k (flat_map (below_within kids levels) (kids clock.0)) ≡ false
        → slice_index rates.new k ≡ slice_index rates.old k }
{
    if levels == 0 {
        return;
    }
    let count = count_of(desc);
    let mut at = siblings.after(count + clock.0);
    for _step in 0..count {
        if at >= count {
            return;
        }
        refresh_kid(levels, desc, siblings, bank, ClockId(at), rate, rates);
        at = siblings.after(at);
    }
}

/// Computes the rate of a clock over this rate of its parent, and the rates of the clocks below it,
/// within so many levels. Other rates stay.
pub(crate) fn refresh_below<B: Bank>(
    levels: u32,
    desc: &ValidDesc,
    siblings: &Ring,
    bank: &B,
    clock: ClockId,
    parent: u64,
    rates: &mut [u64],
)
    requires valid { IsValid (B.size bank.now) desc.now.defs }
    requires rings { length siblings.now ≡ length desc.now.defs + length desc.now.defs + 2 }
    requires place { clock.0 < length desc.now.defs }
    requires rated { length rates.old ≡ length desc.now.defs }
    ensures rated { length rates.new ≡ length rates.old }
    ensures below { IfSome (B.contents bank.now) (λ regs. (kids : ℕ → List ℕ) (rate : ℕ → ℕ)
        → AreKidRings (length desc.now.defs) siblings.now kids → AreOver desc.now.defs regs kids rate
        → rate clock.0 ≡ rate_over (kind_of desc.now.defs clock.0) regs parent
        → (k : ℕ) → is_in k (below_within kids levels clock.0) ≡ true → slice_index rates.new k ≡ rate k) }
    ensures others { (kids : ℕ → List ℕ) → AreKidRings (length desc.now.defs) siblings.now kids
        → (k : ℕ) → is_in k (below_within kids levels clock.0) ≡ false → slice_index rates.new k ≡ slice_index rates.old k }
{
    if levels == 0 {
        return;
    }
    let rate = rate_over(desc, clock, bank, parent);
    rates[clock.0 as usize] = rate;
    refresh_kids(levels - 1, desc, siblings, bank, clock, rate, rates);
}
