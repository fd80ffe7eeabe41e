//! Drivers that make their events in order.

ghost use Rattle.std.specs.Prelude.{◌<◌, ◌≤◌, [], length, IfOk};
ghost use Rattle.std.specs.List.{AllByRecursion};
ghost use Rattle.driver_runs.specs.Courses.{ArePlaced, BeginsCourse, Course, IsUnderWay, IsNextAt, HasEnded, KeepsCourse};
ghost use Rattle.driver_runs.specs.Scripts.{HasGoneOn};

use crate::moving::{can_move_at, first_to_move, move_driver};
use crate::standing::Standing;
use clk_io::NoMemory;
use clk_machine::Core;
use drv_scripts::Script;
use reg_bank::Bank;

/// Each number of an order gives its driver an event, if it can make one. Gives the driver whose call
/// is in flight at the end.
pub(crate) fn follow_order<B: Bank>(
    core: &mut Core<B>,
    drivers: &[Script],
    standings: &mut [Standing],
    order: &[u32],
) -> Result<Option<u32>, NoMemory>
    requires placed { ArePlaced core.old.start.defs drivers.now }
    requires begins { BeginsCourse core.old drivers.now standings.old }
    requires turns { AllByRecursion (λ d. 0 < d) order.now }
    ensures ok { IfOk result (λ going. Course core.old drivers.now order.now standings.new going [] core.new) }
    ensures on { HasGoneOn core.old core.new }
{
    let mut going = None;
    for driver in order {
        if can_move_at(going, drivers, standings, *driver) {
            going = move_driver(core, drivers, standings, going, *driver)?;
        }
    }
    Ok(going)
}

// Makes the next event of a driver, and the steps of its call until it is answered.
fn run_on<B: Bank>(
    core: &mut Core<B>,
    drivers: &[Script],
    standings: &mut [Standing],
    going: Option<u32>,
    driver: u32,
) -> Result<Option<u32>, NoMemory>
    requires placed { ArePlaced core.old.start.defs drivers.now }
    requires way { IsUnderWay drivers.now standings.old going core.old }
    requires next { IsNextAt going drivers.now standings.old driver }
    ensures ok { IfOk result (λ after. KeepsCourse drivers.now standings.old going core.old standings.new after core.new) }
    ensures on { HasGoneOn core.old core.new }
{
    let mut flying = move_driver(core, drivers, standings, going, driver)?;
    'steps: while flying == Some(driver) {
        flying = move_driver(core, drivers, standings, flying, driver)?;
    }
    Ok(flying)
}

/// The lowest numbered driver that can make an event makes one, again and again, until all have
/// answered all their commands.
pub(crate) fn run_rest<B: Bank>(
    core: &mut Core<B>,
    drivers: &[Script],
    standings: &mut [Standing],
    going: Option<u32>,
) -> Result<(), NoMemory>
    requires few { length drivers.now ≤ 65536 }
    requires placed { ArePlaced core.old.start.defs drivers.now }
    requires way { IsUnderWay drivers.now standings.old going core.old }
    ensures ok { IfOk result (λ _. HasEnded drivers.now standings.old going core.old standings.new core.new) }
    ensures on { HasGoneOn core.old core.new }
{
    let mut flying = going;
    'events: while let Some(driver) = first_to_move(flying, drivers, standings) {
        flying = run_on(core, drivers, standings, flying, driver)?;
    }
    Ok(())
}
