//! Counts without anything kept: each holder's path is marked, and marked children are counted.

use clk_base::ClockId;
use std::alloc::{AllocError, Global};

// Marks a clock and all above it.
fn mark_path(links: &[Option<ClockId>], held: &mut [bool], from: usize) {
    let mut at = from;
    for _level in 0..64 {
        if at >= held.len() || at >= links.len() {
            return;
        }
        held[at] = true;
        match links[at] {
            Some(parent) => at = parent.0 as usize,
            None => return,
        }
    }
}

/// The clocks on the path of a holder.
pub(crate) fn held_clocks(
    alloc: Global,
    links: &[Option<ClockId>],
    own: &[u32],
) -> Result<Vec<bool>, AllocError> {
    let mut held = vec![in alloc; false; own.len()]?;
    for (holder, count) in own.iter().enumerate() {
        if *count > 0 {
            mark_path(links, held.as_mut_slice(), holder);
        }
    }
    Ok(held)
}

// How many children of a clock are held.
fn held_children(links: &[Option<ClockId>], held: &[bool], clock: usize) -> u32 {
    let mut count = 0u32;
    for (link, is_held) in links.iter().zip(held) {
        if *is_held && link.is_some_and(|parent| parent.0 as usize == clock) {
            count = count.saturating_add(1);
        }
    }
    count
}

/// What each clock has of its own, and one for each held child.
pub(crate) fn plain_sums(
    alloc: Global,
    links: &[Option<ClockId>],
    own: &[u32],
) -> Result<Vec<u32>, AllocError> {
    let held = held_clocks(alloc, links, own)?;
    let mut sums = Vec::new(alloc);
    for (clock, count) in own.iter().enumerate() {
        sums.push(count.saturating_add(held_children(links, held.as_slice(), clock)))?;
    }
    Ok(sums)
}

/// How many clocks are held.
pub(crate) fn count_held(
    alloc: Global,
    links: &[Option<ClockId>],
    own: &[u32],
) -> Result<usize, AllocError> {
    let held = held_clocks(alloc, links, own)?;
    Ok(held.iter().filter(|is_held| **is_held).count())
}
