ghost use Rattle.std.specs.Prelude.{◌≡◌, ◌≢◌, ℕ, ◌<◌, Option, List, length, slice_index, slice_set, IfSome, is_some};
ghost use Rattle.std.specs.Option.{option_map};
ghost use Rattle.reg_bank.specs.Registers.{AreWords};
ghost use Rattle.reg_bank.specs.Locks.{most_plls, armed, started, polled, is_locked};
ghost use Rattle.reg_bank.specs.declared.pll_lock.PllLock.{PllLock};

/// A bank of registers: words of 32 bits, read and written by their places, and the locks of the PLLs
/// that it powers. It can't fail.
///
/// A bank may tell contracts its words (`contents`) and its locks (`lock`); one that doesn't, as a
/// device whose words change by themselves, promises no more than its size. Whether it tells them is
/// the same before and after every call.
pub trait Bank: Drop {
    // How many words the bank has.
    ghost size: { Self → ℕ };

    // The words, where the bank tells them.
    ghost contents: { Self → Option (List ℕ) };

    // The lock of a PLL, where the bank tells it.
    ghost lock: { Self → ℕ → Option PllLock };

    /// The number of words.
    fn words(&self) -> usize
        ensures { result ≡ size self.now };

    /// The word at this place.
    fn read(&self, word: usize) -> u32
        requires { word < size self.now }
        ensures { IfSome (contents self.now) (λ words. result ≡ slice_index words word) };

    /// Gives the word at this place a value. All others stay.
    fn write(&mut self, word: usize, value: u32)
        requires { word < size self.old }
        ensures size { size self.new ≡ size self.old }
        ensures tells { is_some (contents self.new) ≡ is_some (contents self.old) }
        ensures words { contents self.new ≡ option_map (λ words. slice_set words word value) (contents self.old) }
        ensures locks { (p : ℕ) → lock self.new p ≡ lock self.old p };

    /// Makes this the delay of a PLL's lock: it answers yes from so many polls after a start on.
    fn arm(&mut self, pll: u32, polls: u32)
        requires { pll < most_plls }
        ensures size { size self.new ≡ size self.old }
        ensures words { contents self.new ≡ contents self.old }
        ensures lock { lock self.new pll ≡ option_map (armed polls) (lock self.old pll) }
        ensures others { (p : ℕ) → p ≢ pll → lock self.new p ≡ lock self.old p };

    /// Starts a PLL's lock: its polls are counted from 0 again.
    fn start(&mut self, pll: u32)
        requires { pll < most_plls }
        ensures size { size self.new ≡ size self.old }
        ensures words { contents self.new ≡ contents self.old }
        ensures lock { lock self.new pll ≡ option_map started (lock self.old pll) }
        ensures others { (p : ℕ) → p ≢ pll → lock self.new p ≡ lock self.old p };

    /// Polls a PLL's lock: true where it has had as many polls as its delay says.
    fn locked(&mut self, pll: u32) -> bool
        requires { pll < most_plls }
        ensures size { size self.new ≡ size self.old }
        ensures words { contents self.new ≡ contents self.old }
        ensures lock { lock self.new pll ≡ option_map polled (lock self.old pll) }
        ensures others { (p : ℕ) → p ≢ pll → lock self.new p ≡ lock self.old p }
        ensures answer { IfSome (lock self.new pll) (λ now. result ≡ is_locked now) };

    // The words that are told are as many as the bank has.
    ghost sized: { (bank : Self) → IfSome (contents bank) (λ words. length words ≡ size bank) };

    // Each of them is a word of 32 bits.
    ghost whole: { (bank : Self) → IfSome (contents bank) AreWords };
}
