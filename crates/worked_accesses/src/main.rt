//! Worked accesses as data: a core over a bank that records, driven call by call through each bundle
//! of some files, printed for a comparison.
//!
//! The words of this program name files, which hold bundles one after another. A bundle begins after a
//! line `=== NAME: READS`, up to the line feed in front of the next such line. READS are words `N=M`:
//! entry N of the journal may read M words of the bank; an entry that isn't named may read none.
//!
//! Of each bundle that line is printed again, then what the opening writes, and then each entry of the
//! journal with what it asks of the bank, in its order.
#![tactic(auto)]

mod page;
mod playing;
mod reads;
mod recording;
mod script;

use anyhow::Context;
use clk_io::NoMemory;
use drv_scripts::{Bundle, BundleFault, read_bundle};
use page::Page;
use playing::play_bundle;
use std::alloc::Global;
use std::{env, fs};

/// What a line of a file begins with where a bundle begins.
const MARK: &str = "=== ";

fn main(rt: HostRuntime) -> anyhow::Result<()> {
    let mut page = Page::new(rt.alloc(), rt.stdout());
    for path in env::args(&rt)?.skip(1) {
        let runs = fs::read_to_string(&rt, path.as_str())?;
        print_runs(&mut page, runs.as_str())?;
    }
    page.finish()
}

// Prints what each bundle of a file comes to.
fn print_runs(page: &mut Page, runs: &str) -> anyhow::Result<()> {
    let first = runs
        .strip_prefix(MARK)
        .context("no bundle begins the file")?;
    for run in first.split("\n=== ") {
        print_run(page, run)?;
    }
    Ok(())
}

// The bundle that a text spells.
fn read(alloc: Global, text: &str) -> anyhow::Result<Bundle> {
    match read_bundle(alloc, text.as_bytes()) {
        Ok(bundle) => Ok(bundle),
        Err(BundleFault::Refused { line, reason }) => {
            anyhow::bail!("line {line} of a bundle: {reason:?}")
        }
        Err(BundleFault::NoMemory) => Err(NoMemory.into()),
    }
}

// Prints what a bundle comes to, from its name on.
fn print_run(page: &mut Page, run: &str) -> anyhow::Result<()> {
    let (head, text) = run.split_once('\n').context("a name has no bundle")?;
    let (_name, reads) = head.split_once(':').context("a bundle states no reads")?;
    let bundle = read(page.alloc(), text)?;
    page.print(MARK)?;
    page.print_line(head)?;
    play_bundle(page, &bundle, reads)
}
