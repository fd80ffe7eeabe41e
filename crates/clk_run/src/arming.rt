//! Arming the locks of PLLs.

ghost use Rattle.std.specs.Prelude.{◌≡◌, ℕ, ◌<◌};
ghost use Rattle.std.specs.List.{AllByRecursion};
ghost use Rattle.reg_bank.specs.Locks.{most_plls};
ghost use Rattle.clk_run.specs.Arming.{armed_by};

use drv_scripts::LockLine;
use reg_bank::Bank;

/// Gives the locks of a bank the delays that these lines state; a later line of a PLL wins.
pub(crate) fn arm_locks<B: Bank>(bank: &mut B, locks: &[LockLine])
    requires { AllByRecursion (λ l. l.clock.0 < most_plls) locks.now }
    ensures size { B.size bank.new ≡ B.size bank.old }
    ensures words { B.contents bank.new ≡ B.contents bank.old }
    ensures locks { (p : ℕ) → B.lock bank.new p ≡ armed_by locks.now p (B.lock bank.old p) }
{
    for line in locks {
        bank.arm(line.clock.0, line.polls);
    }
}
