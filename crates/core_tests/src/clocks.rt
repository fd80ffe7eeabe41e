//! Tables of clocks that tests describe.

ghost use Rattle.std.specs.Prelude.{◌≡◌, IfOk};

use bitflags::Flags;
use clk_base::{AddFault, ClkFlags, ClockDef, ClockId, ClockName, Desc, Kind, Parents, ValidDesc};
use clk_io::NoMemory;
use std::alloc::Global;
use std::process::Abort;
use std::test::Fail;

/// A clock: its name, its kind, and the places of its possible parents.
#[derive(Clone, Copy)]
pub(crate) struct Given<'a>(pub(crate) &'a str, pub(crate) Kind, pub(crate) &'a [u32]);

// The clocks at these places.
fn parents(alloc: Global, places: &[u32]) -> Result<Parents, NoMemory> {
    let mut clocks = Vec::new(alloc);
    for place in places {
        clocks.push(ClockId(*place))?;
    }
    Ok(Parents::new(clocks))
}

// Adds a clock with these flags to a description.
fn add(
    rt: &impl Abort,
    alloc: Global,
    desc: &mut Desc,
    given: &Given,
    flags: ClkFlags,
) -> Result<(), AddFault> {
    assert!(rt; desc.len() < 100);
    let def = ClockDef {
        name: ClockName::new(String::from_str(alloc, given.0)?),
        kind: given.1,
        flags,
        parents: parents(alloc, given.2)?,
    };
    desc.add(def)?;
    Ok(())
}

/// The description of these clocks, over so many words.
pub(crate) fn described(
    rt: &impl Abort,
    alloc: Global,
    clocks: &[Given],
    words: u32,
) -> Result<ValidDesc, Fail>
    ensures { IfOk result (λ desc. desc.words ≡ words) }
{
    described_with(rt, alloc, clocks, ClkFlags::empty(), words)
}

/// The description of these clocks, each with these flags, over so many words.
pub(crate) fn described_with(
    rt: &impl Abort,
    alloc: Global,
    clocks: &[Given],
    flags: ClkFlags,
    words: u32,
) -> Result<ValidDesc, Fail>
    ensures { IfOk result (λ desc. desc.words ≡ words) }
{
    let mut desc = Desc::new(alloc);
    for given in clocks {
        add(rt, alloc, &mut desc, given, flags)?;
    }
    assert!(rt; desc.has_all_parents());
    Ok(desc.check(alloc, words)?)
}
