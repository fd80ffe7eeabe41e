//! Numbers that stand in rings.

ghost use Rattle.std.specs.Prelude.{◌≡◌, ◌≢◌, ℕ, ◌<◌, false, List, [], ◌∷◌, length, slice_index, IfOk};
ghost use Rattle.clk_model.specs.Lists.{is_in, without, to_front};
ghost use Rattle.clk_tree.specs.Rings.{Leads};

use clk_io::NoMemory;
use std::alloc::Global;
use std::marker::Model;

/// Numbers, each in a ring: behind each stands another, or the number itself. Contracts see the
/// list of the numbers that stand behind each.
#[derive(Drop)]
pub(crate) struct Ring {
    after: Vec<u32>,
    before: Vec<u32>,
}

impl Model for Ring {
    ghost use Rattle.std.specs.Prelude.{ℕ, List};
    ghost use Rattle.clk_tree.specs.Rings.{AreRings};

    ghost Value = { List ℕ };

    ghost view = { λ r. r.after.items };

    ghost invariant = { λ r. AreRings r.after.items r.before.items };
}

// The numbers below a size, in their order.
fn numbers(alloc: Global, size: u32) -> Result<Vec<u32>, NoMemory>
    ensures size { IfOk result (λ numbers. length numbers.items ≡ size) }
    ensures own { IfOk result (λ numbers. (i : ℕ) → i < size → slice_index numbers.items i ≡ i) }
{
    let mut numbers = Vec::new(alloc);
    for number in 0..size {
        numbers.push(number)?;
    }
    Ok(numbers)
}

impl Ring {
    /// The numbers below a size, each alone.
    pub(crate) fn alone(alloc: Global, size: u32) -> Result<Ring, NoMemory>
        ensures size { IfOk result (λ ring. length ring ≡ size) }
        ensures alone { IfOk result (λ ring. (i : ℕ) → i < size → slice_index ring i ≡ i) }
    {
        let after = numbers(alloc, size)?;
        let before = numbers(alloc, size)?;
        Ok(Ring { after, before })
    }

    /// The number behind another.
    pub(crate) fn after(&self, at: u32) -> u32
        requires { at < length self.now }
        ensures next { result ≡ slice_index self.now at }
        ensures inside { result < length self.now }
    {
        self.after[at as usize]
    }

    // Takes a number out of its ring, so that it is alone.
    fn take_out(&mut self, number: u32)
        requires { number < length self.old }
        ensures size { length self.new ≡ length self.old }
        ensures alone { slice_index self.new number ≡ number }
        ensures rings { (end : ℕ) (xs : List ℕ) → end ≢ number → Leads self.old end end xs
            → Leads self.new end end (without (number ∷ []) xs) }
        ensures stays { (k : ℕ) → k ≢ number → slice_index self.old k ≡ k → slice_index self.new k ≡ k }
    {
        let after = self.after[number as usize];
        let before = self.before[number as usize];
        self.after[before as usize] = after;
        self.after[number as usize] = number;
        self.before[after as usize] = before;
        self.before[number as usize] = number;
    }

    // Puts a number that is alone behind another.
    fn put_behind(&mut self, end: u32, number: u32)
        requires end { end < length self.old }
        requires number { number < length self.old }
        requires two { end ≢ number }
        requires alone { slice_index self.old number ≡ number }
        ensures size { length self.new ≡ length self.old }
        ensures front { (xs : List ℕ) → is_in end xs ≡ false → is_in number xs ≡ false → Leads self.old end end xs
            → Leads self.new end end (number ∷ xs) }
        ensures others { (e : ℕ) (xs : List ℕ) → e ≢ end → e ≢ number → is_in end xs ≡ false → is_in number xs ≡ false
            → Leads self.old e e xs → Leads self.new e e xs }
        ensures stays { (k : ℕ) → k ≢ end → k ≢ number → slice_index self.old k ≡ k → slice_index self.new k ≡ k }
    {
        let first = self.after[end as usize];
        self.after[end as usize] = number;
        self.after[number as usize] = first;
        self.before[first as usize] = number;
        self.before[number as usize] = end;
    }

    /// Puts a number behind another, and takes it from where it stood. Another number that is alone
    /// stays so.
    pub(crate) fn move_behind(&mut self, end: u32, number: u32)
        requires end { end < length self.old }
        requires number { number < end }
        ensures size { length self.new ≡ length self.old }
        ensures front { (xs : List ℕ) → is_in end xs ≡ false → Leads self.old end end xs → Leads self.new end end (to_front number xs) }
        ensures others { (e : ℕ) (xs : List ℕ) → e ≢ end → e ≢ number → is_in end xs ≡ false
            → Leads self.old e e xs → Leads self.new e e (without (number ∷ []) xs) }
        ensures stays { (k : ℕ) → k ≢ end → k ≢ number → slice_index self.old k ≡ k → slice_index self.new k ≡ k }
    {
        self.take_out(number);
        self.put_behind(end, number);
    }
}
