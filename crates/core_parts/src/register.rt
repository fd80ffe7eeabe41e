//! Registering a clock.

ghost use Rattle.std.specs.Prelude.{◌≡◌, ◌≢◌, ℕ, ◌<◌, ◌||◌, ◌==◌, true, length, IfSome};
ghost use Rattle.std.specs.Option.{option_map};
ghost use Rattle.clk_base.specs.Valid.{IsValid};
ghost use Rattle.clk_model.specs.Lists.{to_front};
ghost use Rattle.clk_model.specs.State.{registered, link_in};
ghost use Rattle.clk_model.specs.Tree.{link_given};
ghost use Rattle.clk_model.specs.Begin.{registered_rows};
ghost use Rattle.clk_tree.specs.TreeState.{IsTree};
ghost use Rattle.core_parts.specs.Tied.{AreKept};

use crate::window::Window;
use clk_base::ClockId;
use clk_tree::Tree;
use orphans::read_link;
use reg_bank::Bank;

/// The parent that a registration of the clock gives it: the one that the registers select, if it is
/// registered.
pub fn given_parent<B: Bank>(window: &Window<B>, tree: &Tree, clock: ClockId) -> Option<ClockId>
    requires place { clock.0 < length tree.now.defs }
    requires valid { IsValid tree.now.words tree.now.defs }
    requires words { window.now.size ≡ tree.now.words }
    ensures link { IfSome window.now.words (λ regs. option_map (λ p. p.0) result ≡ link_given tree.now.defs regs tree.now.clocks clock.0) }
    ensures there { IfSome result (λ p. registered tree.now.clocks p.0 ≡ true) }
{
    read_link(tree, window.bank(), clock)
}

/// Registers a clock: it is linked to the parent that the registers select, if that is registered,
/// and its rate is its last request.
pub fn register_clock<B: Bank>(window: &Window<B>, tree: &mut Tree, clock: ClockId)
    requires place { clock.0 < length tree.old.defs }
    requires valid { IsValid tree.old.words tree.old.defs }
    requires words { window.now.size ≡ tree.old.words }
    requires kept { AreKept tree.old.defs window.now.words tree.old.clocks tree.old.rates }
    ensures rows { (k : ℕ) → registered tree.new.clocks k ≡ (registered tree.old.clocks k || clock.0 == k) }
    ensures links { (d : ℕ) → d ≢ clock.0 → link_in tree.new.clocks d ≡ link_in tree.old.clocks d }
    ensures clocks { IfSome window.now.words (λ regs. tree.new.clocks ≡ registered_rows tree.old.defs regs tree.old.clocks clock.0) }
    ensures order { tree.new.order ≡ to_front clock.0 tree.old.order }
    ensures defs { tree.new.defs ≡ tree.old.defs }
    ensures checked { tree.new.words ≡ tree.old.words }
    ensures kept { AreKept tree.old.defs window.now.words tree.new.clocks tree.new.rates }
    ensures stands { IsTree tree.new.defs tree.new.clocks tree.new.order tree.new.rates }
{
    let bank = window.bank();
    let parent = read_link(tree, bank, clock);
    tree.attach(clock, parent);
    tree.refresh_from(bank, clock);
    let rate = tree.rate(clock);
    tree.set_last_request(clock, rate);
}
