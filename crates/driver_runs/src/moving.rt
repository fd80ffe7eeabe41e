//! Which driver makes the next event.

ghost use Rattle.std.specs.Prelude.{◌≡◌, ℕ, ◌<◌, ◌≤◌, true, false, length, IfOk, IfSome, IfNone};
ghost use Rattle.driver_runs.specs.Moves.{can_move_at, MayMoveAt, MovesAt};
ghost use Rattle.driver_runs.specs.Scripts.{HasGoneOn};

use crate::event::{can_move, make_event};
use crate::standing::Standing;
use clk_io::NoMemory;
use clk_machine::Core;
use drv_scripts::Script;
use reg_bank::Bank;

/// Whether the driver with this number, from 1, can make an event.
pub(crate) fn can_move_at(
    going: Option<u32>,
    drivers: &[Script],
    standings: &[Standing],
    driver: u32,
) -> bool
    requires { 0 < driver }
    ensures { result ≡ can_move_at going drivers.now standings.now driver }
{
    let place = driver as usize - 1;
    let Some(script) = drivers.get(place) else {
        return false;
    };
    match standings.get(place) {
        Some(standing) => can_move(going, driver, script.commands.as_slice(), standing),
        None => false,
    }
}

/// The lowest numbered driver that can make an event.
pub(crate) fn first_to_move(
    going: Option<u32>,
    drivers: &[Script],
    standings: &[Standing],
) -> Option<u32>
    requires few { length drivers.now ≤ 65536 }
    ensures found { IfSome result (λ d. (0 < d) × (d ≤ length drivers.now) × (can_move_at going drivers.now standings.now d ≡ true)
        × ((k : ℕ) → 0 < k → k < d → can_move_at going drivers.now standings.now k ≡ false)) }
    ensures none { IfNone result ((k : ℕ) → 0 < k → k ≤ length drivers.now → can_move_at going drivers.now standings.now k ≡ false) }
{
    for place in 0..drivers.len() {
        let driver = place as u32 + 1;
        if can_move_at(going, drivers, standings, driver) {
            return Some(driver);
        }
    }
    None
}

/// Makes the next event of the driver with this number. Gives the driver whose call is in flight
/// behind it.
pub(crate) fn move_driver<B: Bank>(
    core: &mut Core<B>,
    drivers: &[Script],
    standings: &mut [Standing],
    going: Option<u32>,
    driver: u32,
) -> Result<Option<u32>, NoMemory>
    requires first { 0 < driver }
    requires within { driver ≤ length drivers.now }
    requires many { length standings.old ≡ length drivers.now }
    requires may { MayMoveAt core.old drivers.now standings.old going driver }
    ensures ok { IfOk result (λ after. MovesAt core.old drivers.now standings.old going driver core.new standings.new after) }
    ensures on { HasGoneOn core.old core.new }
{
    let place = driver as usize - 1;
    let commands = drivers[place].commands.as_slice();
    make_event(core, driver, commands, &mut standings[place], going)
}
