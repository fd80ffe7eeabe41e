//! What the reader of bundles makes of the generated text.

ghost use Rattle.std.specs.Prelude.{ℕ, ◌<◌, ◌≤◌};
ghost use Rattle.clk_gen.specs.Generated.{generated};
ghost use Rattle.drv_scripts.specs.Verdict.{Accepts};
ghost use Rattle.gen_laws.specs.Measured.{measured};

/// The generated text of 1 to 64 drivers spells a bundle, and which: a root, and for each driver a PLL,
/// a divider and a gate, which alone it uses.
pub fn generated_is_read()
    ensures { (drivers : ℕ) → 0 < drivers → drivers ≤ 64 → Accepts (generated drivers) (measured drivers) }
{}
