//! The clocks that a change of rate or parent tells.

ghost use Rattle.std.specs.Prelude.{◌≡◌, ◌++◌, ◌∷◌, [], ◌<◌, length, IfOk, OnOk};
ghost use Rattle.clk_tree.specs.Plans.{AreThere, rates_of};
ghost use Rattle.core_parts.specs.Told.{told_clocks};
ghost use Rattle.core_parts.specs.Course.{notifiers_at};

use change_walk::Changed;
use clk_io::NoMemory;
use clk_tree::{Tree, WalkRate, rate_at};
use notifiers::Notifiers;

// A clock of a walk, after these, if it has notifiers.
fn push_told(
    told: &mut Vec<Changed>,
    tree: &Tree,
    notifiers: &Notifiers,
    entry: WalkRate,
) -> Result<(), NoMemory>
    requires place { entry.clock.0 < length tree.now.defs }
    ensures { IfOk result (λ done. told.new.items ≡ told.old.items
        ++ told_clocks (notifiers_at notifiers.now) tree.now.rates (rates_of (entry ∷ []))) }
{
    if notifiers.chain(entry.clock).is_empty() {
        return Ok(());
    }
    told.push(Changed {
        clock: entry.clock,
        before: tree.rate(entry.clock),
        after: entry.rate,
    })?;
    Ok(())
}

/// The clocks of a walk that have notifiers, each with its kept rate and its planned one, in place of
/// those that stand there. Its one refusal is that memory runs out.
pub fn told_clocks(
    told: &mut Vec<Changed>,
    tree: &Tree,
    notifiers: &Notifiers,
    rates: &[WalkRate],
) -> Result<(), NoMemory>
    requires there { AreThere tree.now.clocks (rates_of rates.now) }
    ensures { OnOk result (told.new.items ≡ told_clocks (notifiers_at notifiers.now) tree.now.rates (rates_of rates.now)) }
{
    told.clear();
    for place in 0..rates.len() {
        let entry = rate_at(tree, rates, place);
        push_told(told, tree, notifiers, entry)?;
    }
    Ok(())
}
