//! Visits of clocks in a change of rate.

ghost use Rattle.std.specs.Prelude.{◌≡◌, ◌+◌, ◌<◌, ◌≤◌, ◌^◌, length, is_some, slice_index, IfSome, Some};
ghost use Rattle.std.specs.Option.{option_map, option_map_or};
ghost use Rattle.clk_base.specs.Description.{kind_of};
ghost use Rattle.clk_base.specs.Fields.{field_of};
ghost use Rattle.clk_model.specs.State.{link_in};
ghost use Rattle.clk_tree.specs.TreeState.{IsTree};
ghost use Rattle.rate_planner.specs.Kept.{wired};
ghost use Rattle.rate_planner.specs.Settings.{put_field};
ghost use Rattle.core_parts.specs.Course.{planned_unless, set_along};
ghost use Rattle.core_parts.specs.Tied.{AreKept};
ghost use Rattle.core_parts.specs.Shape.{LinksLie};
ghost use Rattle.core_parts.specs.Window.{AreTold};

use crate::course::Course;
use crate::window::Window;
use clk_base::{ClockId, Kind};
use clk_tree::Tree;
use rate_planner::setting;
use reg_bank::Bank;

// Puts a number into the field of a clock that selects, divides or multiplies. A clock of another
// kind has none.
fn put_setting<B: Bank>(kind: Kind, window: &mut Window<B>, value: u32)
    requires { IfSome (field_of kind) (λ f. (f.word < window.old.size) × (f.shift + f.width ≤ 32) × (value < 2 ^ f.width)) }
    ensures size { window.new.size ≡ window.old.size }
    ensures words { window.new.words ≡ option_map (put_field kind (Some value)) window.old.words }
    ensures behind { window.new.behind ≡ window.old.behind }
    ensures locks { window.new.locks ≡ window.old.locks }
{
    match kind {
        Kind::Mux {
            word,
            shift,
            width,
            ..
        }
        | Kind::Divider {
            word,
            shift,
            width,
            ..
        }
        | Kind::Pll {
            word,
            shift,
            width,
            ..
        } => window.put_field(word, shift, width, value),
        _ => {}
    }
}

// The kept rate in Hz of the parent of a clock, 0 if it has none.
fn rate_above(tree: &Tree, clock: ClockId) -> u64
    requires links { LinksLie tree.now.defs tree.now.clocks }
    ensures rate { result ≡ option_map_or (slice_index tree.now.rates) (link_in tree.now.clocks clock.0) 0 }
    ensures stands { IsTree tree.now.defs tree.now.clocks tree.now.order tree.now.rates }
{
    match tree.parent(clock) {
        Some(parent) => tree.rate(parent),
        None => 0,
    }
}

/// Writes what a clock gets for this rate over its parent's rate, and brings its kept rate and those of
/// all clocks below it up to date.
#[inline(always)]
pub fn set_to<B: Bank>(window: &mut Window<B>, tree: &mut Tree, clock: ClockId, value: u32)
    requires place { clock.0 < length tree.old.defs }
    requires words { window.old.size ≡ tree.old.words }
    requires kept { AreKept tree.old.defs window.old.words tree.old.clocks tree.old.rates }
    requires fits { IfSome (field_of (kind_of tree.old.defs clock.0)) (λ f. value < 2 ^ f.width) }
    ensures size { window.new.size ≡ window.old.size }
    ensures words { window.new.words ≡ option_map (put_field (kind_of tree.old.defs clock.0) (Some value)) window.old.words }
    ensures behind { window.new.behind ≡ window.old.behind }
    ensures locks { window.new.locks ≡ window.old.locks }
    ensures told { AreTold window.new.size window.new.words }
    ensures kept { AreKept tree.old.defs window.new.words tree.new.clocks tree.new.rates }
    ensures rows { tree.new.clocks ≡ tree.old.clocks }
    ensures order { tree.new.order ≡ tree.old.order }
    ensures defs { tree.new.defs ≡ tree.old.defs }
    ensures checked { tree.new.words ≡ tree.old.words }
    ensures stands { IsTree tree.new.defs tree.new.clocks tree.new.order tree.new.rates }
{
    put_setting(tree.def(clock).kind, window, value);
    tree.refresh_from(window.bank(), clock);
}

// The planned rate of a clock, unless it is the one that isn't set after a timeout.
fn planned_unless(missed: Option<ClockId>, course: &Course, clock: ClockId) -> Option<u64>
    ensures { result ≡ planned_unless (option_map (λ c. c.0) missed) course.now.chain clock.0 }
{
    match missed {
        Some(missed) if missed.0 == clock.0 => None,
        _ => course.planned(clock),
    }
}

/// Writes the planned setting of a clock, if it is one of the chain and not the one that isn't set after a
/// timeout, over the rate of its parent, and brings its kept rate and those of all clocks below it up to
/// date.
pub fn set_along<B: Bank>(
    course: &Course,
    missed: Option<ClockId>,
    window: &mut Window<B>,
    tree: &mut Tree,
    clock: ClockId,
)
    requires place { clock.0 < length tree.old.defs }
    requires words { window.old.size ≡ tree.old.words }
    requires links { LinksLie tree.old.defs tree.old.clocks }
    requires kept { AreKept tree.old.defs window.old.words tree.old.clocks tree.old.rates }
    ensures size { window.new.size ≡ window.old.size }
    ensures words { IfSome window.old.words (λ regs. window.new.words
        ≡ Some (set_along (option_map (λ c. c.0) missed) course.now.chain (wired tree.old.defs regs tree.old) clock.0)) }
    ensures told { is_some window.new.words ≡ is_some window.old.words }
    ensures are { AreTold window.new.size window.new.words }
    ensures behind { window.new.behind ≡ window.old.behind }
    ensures locks { window.new.locks ≡ window.old.locks }
    ensures kept { AreKept tree.old.defs window.new.words tree.new.clocks tree.new.rates }
    ensures rows { tree.new.clocks ≡ tree.old.clocks }
    ensures order { tree.new.order ≡ tree.old.order }
    ensures defs { tree.new.defs ≡ tree.old.defs }
    ensures checked { tree.new.words ≡ tree.old.words }
    ensures stands { IsTree tree.new.defs tree.new.clocks tree.new.order tree.new.rates }
{
    let _size = window.len();
    let parent = rate_above(tree, clock);
    let Some(rate) = planned_unless(missed, course, clock) else {
        return;
    };
    let Some(value) = setting(tree.desc(), clock, parent, rate) else {
        return;
    };
    set_to(window, tree, clock, value);
}
