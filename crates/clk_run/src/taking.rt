//! Where the bundle of a command comes from: a source, or for `bench` the generator.

ghost use Rattle.std.specs.Prelude.{◌≡◌, ◌<◌, ◌≤◌, ℕ, Some, is_some, IfOk, IfErr, IfSome};
ghost use Rattle.clk_gen.specs.Generated.{generated};
ghost use Rattle.drv_scripts.specs.Placed.{IsSound};
ghost use Rattle.drv_scripts.specs.Verdict.{Accepts};
ghost use Rattle.clk_run.specs.Outcomes.{generates, GivesBundle, StopsSpelling, StopsReading, CountsStop};

use crate::reading::check_bundle;
use clk_cli::Mode;
use clk_gen::generated;
use clk_io::{NoMemory, ReadFault, Source, read_all};
use drv_scripts::{Bundle, BundleFault, Reason};
use std::alloc::Global;

/// The most drivers that a bundle has.
const MOST_DRIVERS: u32 = 64;

/// The fewest drivers that a generated bundle has.
const FEWEST_DRIVERS: u32 = 1;

/// Why a command has no bundle.
#[derive(Clone, Copy, Debug, PartialEq, Eq)]
pub(crate) enum Stop {
    Refused { line: u32, reason: Reason },
    Read,
    NoMemory,
}

// How many drivers the bundle has that a command generates, where it generates one.
fn generates(mode: Mode) -> Option<u32>
    ensures made { result ≡ generates mode }
    ensures some { IfSome result (λ drivers. 0 < drivers) }
    ensures few { IfSome result (λ drivers. drivers ≤ 64) }
{
    match mode {
        Mode::Check | Mode::Sim | Mode::Run => None,
        Mode::Bench(drivers) => Some(drivers.min(MOST_DRIVERS).max(FEWEST_DRIVERS)),
    }
}

// The bundle that bytes spell.
fn spelled_by(alloc: Global, bytes: &[u8]) -> Result<Bundle, Stop>
    ensures spells { IfOk result (Accepts bytes.now) }
    ensures sound { IfOk result IsSound }
    ensures stops { IfErr result (StopsSpelling bytes.now) }
{
    match check_bundle(alloc, bytes) {
        Ok(bundle) => Ok(bundle),
        Err(BundleFault::Refused { line, reason }) => Err(Stop::Refused { line, reason }),
        Err(BundleFault::NoMemory) => Err(Stop::NoMemory),
    }
}

// The bundle that a source's bytes spell.
fn take_read<S: Source>(alloc: Global, input: &mut S) -> Result<Bundle, Stop>
    ensures gives { IfOk result (GivesBundle None (S.left input.old) (S.left input.new)) }
    ensures sound { IfOk result IsSound }
    ensures stops { IfErr result (StopsReading None (S.left input.old) (S.left input.new)) }
    ensures tells { is_some (S.left input.new) ≡ is_some (S.left input.old) }
    ensures later { S.faults input.old ≤ S.faults input.new }
    ensures counts { CountsStop (S.faults input.old) (S.faults input.new) result }
{
    match read_all(alloc, input) {
        Ok(bytes) => spelled_by(alloc, bytes.as_slice()),
        Err(ReadFault::Read) => Err(Stop::Read),
        Err(ReadFault::NoMemory) => Err(Stop::NoMemory),
        Err(ReadFault::TooLong) => Err(Stop::Refused {
            line: 0,
            reason: Reason::TooLong,
        }),
    }
}

// The bundle of so many drivers that is made to measure; its text is never refused.
fn take_generated(alloc: Global, drivers: u32) -> Result<Bundle, NoMemory>
    requires some { 0 < drivers }
    requires few { drivers ≤ 64 }
    ensures spells { IfOk result (Accepts (generated drivers)) }
    ensures sound { IfOk result IsSound }
{
    let text = generated(alloc, drivers)?;
    match check_bundle(alloc, text.as_bytes()) {
        Ok(bundle) => Ok(bundle),
        Err(BundleFault::Refused { .. }) => unreachable!(),
        Err(BundleFault::NoMemory) => Err(NoMemory),
    }
}

/// The bundle of a command: under `bench` the generated one, for which the source isn't called, and
/// else the one that all bytes of the source spell.
pub(crate) fn take_bundle<S: Source>(
    alloc: Global,
    mode: Mode,
    input: &mut S,
) -> Result<Bundle, Stop>
    ensures gives { IfOk result (GivesBundle (generates mode) (S.left input.old) (S.left input.new)) }
    ensures sound { IfOk result IsSound }
    ensures stops { IfErr result (StopsReading (generates mode) (S.left input.old) (S.left input.new)) }
    ensures unasked { (drivers : ℕ) → generates mode ≡ Some drivers → input.new ≡ input.old }
    ensures tells { is_some (S.left input.new) ≡ is_some (S.left input.old) }
    ensures later { S.faults input.old ≤ S.faults input.new }
    ensures counts { CountsStop (S.faults input.old) (S.faults input.new) result }
{
    match generates(mode) {
        None => take_read(alloc, input),
        Some(drivers) => match take_generated(alloc, drivers) {
            Ok(bundle) => Ok(bundle),
            Err(NoMemory) => Err(Stop::NoMemory),
        },
    }
}
