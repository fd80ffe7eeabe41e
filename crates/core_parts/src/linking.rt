//! Giving a registered clock another parent.

ghost use Rattle.std.specs.Prelude.{◌≡◌, ◌<◌, true, length};
ghost use Rattle.clk_base.specs.Description.{parents_of};
ghost use Rattle.clk_base.specs.Valid.{IsValid};
ghost use Rattle.clk_model.specs.Chain.{linked};
ghost use Rattle.clk_model.specs.Lists.{is_in, to_front};
ghost use Rattle.clk_model.specs.State.{registered};
ghost use Rattle.clk_tree.specs.TreeState.{IsTree};
ghost use Rattle.core_parts.specs.Tied.{AreKept};

use crate::window::Window;
use clk_base::ClockId;
use clk_tree::Tree;
use reg_bank::Bank;

/// Attaches a registered clock to a registered possible parent, and brings its kept rate and those of
/// all clocks below it up to date.
pub fn link_to<B: Bank>(window: &Window<B>, tree: &mut Tree, clock: ClockId, parent: ClockId)
    requires place { clock.0 < length tree.old.defs }
    requires valid { IsValid tree.old.words tree.old.defs }
    requires words { window.now.size ≡ tree.old.words }
    requires there { registered tree.old.clocks clock.0 ≡ true }
    requires parent { registered tree.old.clocks parent.0 ≡ true }
    requires possible { is_in parent.0 (parents_of tree.old.defs clock.0) ≡ true }
    requires kept { AreKept tree.old.defs window.now.words tree.old.clocks tree.old.rates }
    ensures clocks { tree.new.clocks ≡ linked tree.old.clocks clock.0 parent.0 }
    ensures order { tree.new.order ≡ to_front clock.0 tree.old.order }
    ensures defs { tree.new.defs ≡ tree.old.defs }
    ensures checked { tree.new.words ≡ tree.old.words }
    ensures kept { AreKept tree.old.defs window.now.words tree.new.clocks tree.new.rates }
    ensures stands { IsTree tree.new.defs tree.new.clocks tree.new.order tree.new.rates }
{
    tree.attach(clock, Some(parent));
    tree.refresh_from(window.bank(), clock);
}
