//! Two threads, and the value that `close` gives.
ghost use Rattle.std.specs.Prelude.{◌≡◌, ◌+◌, ◌-◌, ◌≤◌, ◌<◌, ◌^◌, false, [], length, map, IfOk, IfSome};
ghost use Rattle.tier_lock.specs.Entries.{own};

use crate::append::append;
use crate::roll::Roll;
use clk_io::NoMemory;
use std::alloc::Global;
use std::sync::Wait;
use std::test::Fail;
use std::thread;
use std::thread::Threads;
use tier_lock::{Lock, Pass};

// Adds all numbers in their order, and gives the pass back.
fn append_all<R: Wait>(
    rt: &R,
    lock: &Lock<Roll>,
    mut pass: Pass<Roll>,
    numbers: &[u32],
) -> Option<Pass<Roll>>
    requires lock { pass.table ≡ lock.now.table }
    requires idle { pass.turn ≡ false }
    requires new { pass.mine ≡ [] }
    requires room { length numbers.now ≤ pass.room }
    ensures { IfSome result (λ p. p ≡ record pass { seen = p.seen; mine = map (λ n. record { driver = pass.number; number = n; prepares = false }) numbers.now; room = pass.room - length numbers.now }) }
{
    for number in numbers {
        if !append(rt, lock, &mut pass, *number, false) {
            return None;
        }
    }
    Some(pass)
}

// Two threads add their numbers. The roll that comes back has both, each in its order.
fn two_append<R: Threads + Wait + Sync>(
    rt: &R,
    alloc: Global,
    first: &[u32],
    second: &[u32],
) -> Result<Option<Roll>, NoMemory>
    requires { length first.now + length second.now < 2 ^ 32 }
    ensures first { IfOk result (λ o. IfSome o (λ r. own (λ l. l.driver) 0 r.lines.items ≡ map (λ n. record { driver = 0; number = n; prepares = false }) first.now)) }
    ensures second { IfOk result (λ o. IfSome o (λ r. own (λ l. l.driver) 1 r.lines.items ≡ map (λ n. record { driver = 1; number = n; prepares = false }) second.now)) }
{
    let total = (first.len() + second.len()) as u32;
    let (lock, mut one, baton) = Lock::create(alloc, Roll::new(alloc, total))?;
    let other = lock.split(&mut one, second.len() as u32);
    let shared = &lock;
    let (one, other) = thread::join(
        rt,
        move ||
            requires { (one.table ≡ shared.now.table) × (one.turn ≡ false) × (one.mine ≡ []) × (length first.now ≤ one.room) }
            ensures { IfSome result (λ p. p ≡ record one { seen = p.seen; mine = map (λ n. record { driver = one.number; number = n; prepares = false }) first.entry.now; room = one.room - length first.entry.now }) }
        { append_all(rt, shared, one, first) },
        move ||
            requires { (other.table ≡ shared.now.table) × (other.turn ≡ false) × (other.mine ≡ []) × (length second.now ≤ other.room) }
            ensures { IfSome result (λ p. p ≡ record other { seen = p.seen; mine = map (λ n. record { driver = other.number; number = n; prepares = false }) second.entry.now; room = other.room - length second.entry.now }) }
        { append_all(rt, shared, other, second) },
    );
    let (Some(one), Some(other)) = (one, other) else {
        return Ok(None);
    };
    let mut passes = Vec::with_capacity(alloc, 2)?;
    passes.push(one)?;
    passes.push(other)?;
    match lock.close(passes, baton) {
        Ok(roll) => Ok(Some(roll)),
        Err((_, _, _, no_memory)) => Err(no_memory),
    }
}

fn numbers_from(alloc: Global, from: u32, count: u32) -> Result<Vec<u32>, Fail>
    requires { from + count < 2 ^ 32 }
    ensures { IfOk result (λ v. length v.items ≡ count) }
{
    let mut numbers = Vec::new(alloc);
    for k in 0..count {
        numbers.push(from + k)?;
    }
    Ok(numbers)
}

fn numbers_of(alloc: Global, roll: &Roll, driver: u32) -> Result<Vec<u32>, Fail> {
    let mut numbers = Vec::new(alloc);
    for line in &roll.lines {
        if line.driver == driver {
            numbers.push(line.number)?;
        }
    }
    Ok(numbers)
}

#[test]
fn two_threads_append_a_thousand_each(rt: HostRuntime) -> Result<(), Fail> {
    let first = numbers_from(rt.alloc(), 0, 1000)?;
    let second = numbers_from(rt.alloc(), 5000, 1000)?;
    let roll = two_append(&rt, rt.alloc(), first.as_slice(), second.as_slice())?.ok_or("memory")?;
    assert_eq!(rt; roll.lines.len(), 2000);
    let of_first = numbers_of(rt.alloc(), &roll, 0)?;
    let of_second = numbers_of(rt.alloc(), &roll, 1)?;
    assert_eq!(rt; of_first.as_slice(), first.as_slice());
    assert_eq!(rt; of_second.as_slice(), second.as_slice());
    Ok(())
}
