//! The steps of an adoption and of a registration.

ghost use Rattle.std.specs.Prelude.{◌≡◌, ◌<◌, ◌++◌, ◌||◌, ◌&&◌, OnErr, OnOk};
ghost use Rattle.clk_model.specs.Holders.{prepared};
ghost use Rattle.core_parts.specs.Adoption.{adoption_by, registration_of};

use clk_base::{ClockId, Micro};
use clk_io::NoMemory;

/// The steps by which a parent adopts an orphan that is prepared or isn't, after these. Its one refusal
/// is that memory runs out.
pub fn push_adoption_by(
    steps: &mut Vec<Micro>,
    orphan: ClockId,
    parent: ClockId,
    prepared: bool,
) -> Result<(), NoMemory>
    ensures pushed { OnOk result (steps.new.items ≡ steps.old.items ++ adoption_by orphan parent prepared) }
    ensures err { OnErr result (steps.new.items ≡ steps.old.items) }
{
    if prepared {
        steps.extend_from_slice(&[
            Micro::Raise(parent),
            Micro::HoldPrepare(parent),
            Micro::HoldEnable(parent),
            Micro::HoldEnable(orphan),
            Micro::Relink(orphan, parent),
            Micro::DropEnable(orphan),
            Micro::Settle(orphan),
        ])?;
    } else {
        steps.extend_from_slice(&[Micro::Relink(orphan, parent), Micro::Settle(orphan)])?;
    }
    Ok(())
}

/// The steps that register a clock that is critical or isn't, after these. Its one refusal is that
/// memory runs out.
pub fn push_registration(
    steps: &mut Vec<Micro>,
    clock: ClockId,
    critical: bool,
) -> Result<(), NoMemory>
    ensures pushed { OnOk result (steps.new.items ≡ steps.old.items ++ registration_of critical clock) }
    ensures err { OnErr result (steps.new.items ≡ steps.old.items) }
{
    if critical {
        steps.extend_from_slice(&[Micro::Raise(clock), Micro::Register(clock)])?;
    } else {
        steps.push(Micro::Register(clock))?;
    }
    Ok(())
}

/// Whether a clock is prepared that was so or not, and that stands above a critical clock or above one
/// that isn't.
pub fn is_held(prepared: bool, critical: bool, above: bool) -> bool
    ensures { result ≡ (prepared || (critical && above)) }
{
    prepared || (critical && above)
}
