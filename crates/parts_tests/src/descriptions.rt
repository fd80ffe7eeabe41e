//! Descriptions: what no contract says of them, that the calls get on where there is memory, how
//! flags are spelled, and the rules that no text of a bundle breaks, since its reader refuses it
//! before.

use bitflags::Flags;
use clk_base::{AddFault, ClkFlags, ClockDef, ClockId, ClockName, Desc, DescFault, Kind, Parents};
use std::alloc::Global;
use std::process::Abort;
use std::test::Fail;

// A fixed clock of 24 MHz.
fn fixed() -> Kind {
    Kind::FixedRate { rate: 24_000_000 }
}

// A mux with a field of six bits.
fn mux(word: u32, shift: u32) -> Kind {
    Kind::Mux {
        word,
        shift,
        width: 6,
        read_only: false,
    }
}

// A clock of this kind at the end, with a name of its own.
fn add(
    alloc: Global,
    desc: &mut Desc,
    kind: Kind,
    flags: ClkFlags,
    parents: Vec<ClockId>,
) -> Result<(), AddFault> {
    let place = desc.len();
    if place >= 5000 {
        return Err(AddFault::NoMemory);
    }
    let name = format!(in alloc; "c{place}")?;
    desc.add(ClockDef {
        name: ClockName::new(name),
        kind,
        flags,
        parents: Parents::new(parents),
    })?;
    Ok(())
}

// What the check of a description says, for a bank of so many words.
fn fault_of(rt: &impl Abort, alloc: Global, desc: Desc, words: u32) -> Option<DescFault> {
    let complete = desc.has_all_parents();
    assert!(rt; complete);
    desc.check(alloc, words).err()
}

#[test]
fn what_no_text_breaks_is_refused(rt: HostRuntime) -> Result<(), Fail> {
    let alloc = rt.alloc();
    let zero = Some(DescFault::BadRange(ClockId(1)));
    let rows = [
        (Kind::Factor { mult: 0, div: 1 }, 1, zero),
        (Kind::Factor { mult: 1, div: 0 }, 1, zero),
        (mux(0, 0), 65, Some(DescFault::TooMany(ClockId(1)))),
    ];
    for (kind, parents, fault) in rows {
        let mut desc = Desc::new(alloc);
        add(
            alloc,
            &mut desc,
            fixed(),
            ClkFlags::empty(),
            Vec::new(alloc),
        )?;
        let over = vec![in alloc; ClockId(0); parents]?;
        add(alloc, &mut desc, kind, ClkFlags::empty(), over)?;
        assert!(rt; fault_of(&rt, alloc, desc, 1) == fault);
    }
    Ok(())
}

// Layers of 64 clocks, each clock a mux over all of the layer before.
fn layers(alloc: Global, flags: ClkFlags) -> Result<Desc, AddFault> {
    let mut desc = Desc::new(alloc);
    for _place in 0..64 {
        add(alloc, &mut desc, fixed(), flags, Vec::new(alloc))?;
    }
    for number in 0..63 * 64 {
        let first = number / 64 * 64;
        let parents = (first..first + 64).map(ClockId).collect(alloc)?;
        add(
            alloc,
            &mut desc,
            mux(number / 5, number % 5 * 6),
            flags,
            parents,
        )?;
    }
    Ok(desc)
}

#[test]
fn many_lines_are_no_long_work(rt: HostRuntime) -> Result<(), Fail> {
    let alloc = rt.alloc();
    // 1 + 64 * 1, 1 + 64 * 65, 1 + 64 * 4161 and then too much
    let much = Some(DescFault::TooMuchWork(ClockId(256)));
    for (flags, fault) in [(ClkFlags::empty(), None), (ClkFlags::SET_RATE_PARENT, much)] {
        assert!(rt; fault_of(&rt, alloc, layers(alloc, flags)?, 807) == fault);
    }
    Ok(())
}

#[test]
fn a_checked_description_and_its_copy_have_the_clocks(rt: HostRuntime) -> Result<(), Fail> {
    let alloc = rt.alloc();
    let mut desc = Desc::new(alloc);
    add(
        alloc,
        &mut desc,
        fixed(),
        ClkFlags::empty(),
        Vec::new(alloc),
    )?;
    let over = vec![in alloc; ClockId(0)]?;
    add(alloc, &mut desc, mux(0, 5), ClkFlags::CRITICAL, over)?;
    assert!(rt; desc.find("c1") == Some(ClockId(1)));
    assert!(rt; desc.find("c2") == None);
    let complete = desc.has_all_parents();
    assert!(rt; complete);
    let copied = desc.check(alloc, 1)?.copy(alloc)?;
    assert!(rt; copied.words() == 1 && copied.len() == 2);
    let def = copied.def(ClockId(1));
    assert!(rt; def.name.as_str() == "c1");
    assert!(rt; def.parents.as_slice() == [ClockId(0)].as_slice());
    assert!(rt; def.flags.contains(ClkFlags::CRITICAL));
    Ok(())
}

#[test]
fn flags_are_read_by_their_names(rt: HostRuntime) {
    assert!(rt; ClkFlags::from_name("CRITICAL") == Some(ClkFlags::CRITICAL));
    assert!(rt; ClkFlags::from_name("SET_RATE_UNGATE") == Some(ClkFlags::SET_RATE_UNGATE));
    assert!(rt; ClkFlags::all().bits() == 255);
}
