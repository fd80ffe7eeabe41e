//! Descriptions to test with.

ghost use Rattle.std.specs.Prelude.{◌≡◌, length, IfOk};

use bitflags::Flags;
use clk_base::{ClkFlags, ClockDef, ClockId, ClockName, Desc, Kind, Parents, ValidDesc};
use std::alloc::Global;
use std::process::Abort;
use std::test::Fail;

// One clock more.
fn add(
    rt: &impl Abort,
    alloc: Global,
    desc: &mut Desc,
    name: &str,
    kind: Kind,
    parent: Option<ClockId>,
) -> Result<(), Fail> {
    let mut parents = Vec::new(alloc);
    if let Some(parent) = parent {
        parents.push(parent)?;
    }
    assert!(rt; desc.len() < 2);
    desc.add(ClockDef {
        name: ClockName::new(String::from_str(alloc, name)?),
        kind,
        flags: ClkFlags::empty(),
        parents: Parents::new(parents),
    })?;
    Ok(())
}

/// A fixed clock and a gate over it.
pub(crate) fn osc_and_gate(rt: &impl Abort, alloc: Global) -> Result<ValidDesc, Fail>
    ensures { IfOk result (λ desc. length desc.defs ≡ 2) }
{
    let mut desc = Desc::new(alloc);
    add(
        rt,
        alloc,
        &mut desc,
        "osc",
        Kind::FixedRate { rate: 24_000_000 },
        None,
    )?;
    let gate = Kind::Gate {
        word: 0,
        bit: 3,
        set_to_disable: false,
    };
    add(rt, alloc, &mut desc, "uart_gate", gate, Some(ClockId(0)))?;
    let complete = desc.has_all_parents();
    assert!(rt; complete);
    let desc = desc.check(alloc, 1)?;
    assert!(rt; desc.len() == 2);
    Ok(desc)
}
