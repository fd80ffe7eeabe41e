//! A core that is driven through a bundle, one event at a time.

ghost use Rattle.std.specs.Prelude.{◌≡◌, true};
ghost use Rattle.clk_machine.specs.Sound.{IsPlaced};

use crate::page::Page;
use crate::reads::most_reads;
use crate::recording::{Record, Recording};
use crate::script::Player;
use anyhow::Context;
use clk_base::{Sleeping, Turn};
use clk_io::NoMemory;
use clk_machine::Core;
use driver_runs::Called;
use drv_scripts::{Bundle, LockLine};
use reg_bank::{Bank, MemBank};
use std::alloc::Global;

/// How many events that are no steps a bundle may come to.
const CREDITS: u32 = 1_000;

/// How many events a bundle may come to.
const MOST_EVENTS: usize = 10_000;

/// How many make events: boot and at most 64 drivers.
const MOST_PLAYERS: u32 = 65;

/// How many locks a bank has.
const LOCKS: u32 = 4_096;

/// A core with the drivers that make its events.
#[derive(Drop)]
struct Play<'p> {
    core: Core<Recording<'p>>,
    record: &'p Record,
    // Boot, and the drivers behind it.
    players: Vec<Player<'p>>,
    names: Vec<String>,
    // How many words each entry may read.
    reads: &'p str,
    // Whose call is in flight.
    going: Option<u32>,
}

// Gives the locks of a bank their delays.
fn arm(bank: &mut Recording, locks: &[LockLine]) {
    for line in locks {
        if line.clock.0 < LOCKS {
            bank.arm(line.clock.0, line.polls);
        }
    }
}

// A core at the opening of a bundle.
fn open_core<'r>(
    alloc: Global,
    bundle: &Bundle,
    record: &'r Record,
) -> anyhow::Result<Core<Recording<'r>>> {
    let mut bank = Recording::new(MemBank::new(alloc)?, record);
    arm(&mut bank, bundle.locks.as_slice());
    let words = bundle.words.as_slice();
    let fits = words.len() == bundle.desc.words() as usize && words.len() <= bank.words();
    anyhow::ensure!(fits, "a bundle has other words than its clocks");
    let desc = bundle.desc.copy(alloc)?;
    let core = Core::create(alloc, desc, bank, words, false, CREDITS)?;
    Ok(core)
}

// Boot, and the drivers behind it.
fn players<'b>(alloc: Global, bundle: &'b Bundle) -> Result<Vec<Player<'b>>, NoMemory> {
    let mut players = Vec::new(alloc);
    players.push(Player::new(alloc, bundle.boot.as_slice())?)?;
    for script in bundle.drivers.as_slice() {
        players.push(Player::new(alloc, script.commands.as_slice())?)?;
    }
    Ok(players)
}

// Their names.
fn names(alloc: Global, bundle: &Bundle) -> Result<Vec<String>, NoMemory> {
    let mut names = Vec::new(alloc);
    names.push(String::from_str(alloc, "boot")?)?;
    for script in bundle.drivers.as_slice() {
        names.push(String::from_str(alloc, script.name.as_str())?)?;
    }
    Ok(names)
}

// Whether a call names clocks of the description alone.
fn is_placed(core: &Core<Recording>, what: &Sleeping) -> bool
    ensures { result ≡ true → IsPlaced core.now.start.defs what.now }
{
    match what {
        Sleeping::Get(Some(clock)) | Sleeping::Probe(clock) | Sleeping::SetParent(_, clock) => {
            (clock.0 as usize) < core.desc().len()
        }
        _ => true,
    }
}

impl<'p> Play<'p> {
    // Begins a call that may sleep.
    fn begin(&mut self, driver: u32, what: &Sleeping) -> anyhow::Result<Turn> {
        let core = &mut self.core;
        let may = core.credits_left() > 0 && core.quiet() && is_placed(core, what);
        anyhow::ensure!(may, "a call can't begin");
        Ok(core.begin(driver, what)?)
    }

    // Makes a step of the call in flight.
    fn step(&mut self) -> anyhow::Result<Turn> {
        anyhow::ensure!(!self.core.quiet(), "no call is in flight");
        Ok(self.core.step())
    }

    // Makes a call of a driver.
    fn make(&mut self, driver: u32, called: Called) -> anyhow::Result<Turn> {
        let core = &mut self.core;
        anyhow::ensure!(core.credits_left() > 0, "no credit is left");
        match called {
            Called::Sleeping(what) => self.begin(driver, &what),
            Called::Enable(handle) => Ok(Turn::Done(core.enable(driver, handle))),
            Called::Disable(handle) => Ok(Turn::Done(core.disable(driver, handle))),
            Called::Running(handle) => Ok(Turn::Done(core.running(driver, handle))),
        }
    }

    // The turn of a driver's next event, if it can make one.
    fn turn(&mut self, driver: u32) -> anyhow::Result<Option<Turn>> {
        if self.going == Some(driver) {
            return Ok(Some(self.step()?));
        }
        let Some(player) = self.players.get_mut(driver as usize) else {
            return Ok(None);
        };
        match player.call() {
            None => Ok(None),
            Some(Called::Sleeping(_)) if self.going.is_some() => Ok(None),
            Some(called) => Ok(Some(self.make(driver, called)?)),
        }
    }

    // A driver's call goes on, or is answered.
    fn follow(&mut self, driver: u32, turn: Turn) {
        match turn {
            Turn::Going => self.going = Some(driver),
            Turn::Done(reply) => {
                if self.going == Some(driver) {
                    self.going = None;
                }
                if let Some(player) = self.players.get_mut(driver as usize) {
                    player.answer(reply);
                }
            }
        }
    }

    // Makes a driver's next event, if it can make one, and prints it. Tells whether it made one.
    fn make_event(&mut self, page: &mut Page, driver: u32) -> anyhow::Result<bool> {
        let Some(turn) = self.turn(driver)? else {
            return Ok(false);
        };
        self.follow(driver, turn);
        let journal = self.core.journal();
        let entry = journal.last().context("no entry was made")?;
        let number = journal.len();
        let desc = self.core.desc();
        page.print_entry(desc, self.names.as_slice(), number, entry)?;
        page.print_record(desc, self.record, most_reads(self.reads, number))?;
        Ok(true)
    }

    // The first of so many players that can make an event makes its next one.
    fn make_first(&mut self, page: &mut Page, players: u32) -> anyhow::Result<bool> {
        for driver in 0..players {
            if self.make_event(page, driver)? {
                return Ok(true);
            }
        }
        Ok(false)
    }

    // So many players make their events, until none of them can make one.
    fn run(&mut self, page: &mut Page, players: u32) -> anyhow::Result<()> {
        for _ in 0..MOST_EVENTS {
            if !self.make_first(page, players)? {
                return Ok(());
            }
        }
        anyhow::bail!("a bundle comes to too many events")
    }
}

/// Drives a core through a bundle and prints each event with what it asks of the bank: boot's events,
/// then one of each driver that the order names, if it can make one, and then always one of the first
/// driver that can.
pub(crate) fn play_bundle(page: &mut Page, bundle: &Bundle, reads: &str) -> anyhow::Result<()> {
    let alloc = page.alloc();
    let record = Record::new(alloc);
    let mut play = Play {
        core: open_core(alloc, bundle, &record)?,
        record: &record,
        players: players(alloc, bundle)?,
        names: names(alloc, bundle)?,
        reads,
        going: None,
    };
    page.print_line("opening")?;
    page.print_record(&bundle.desc, &record, 0)?;
    play.run(page, 1)?;
    for driver in bundle.order.as_slice() {
        play.make_event(page, *driver)?;
    }
    play.run(page, MOST_PLAYERS)
}
