//! Laws of what bytes spell.

ghost use Rattle.std.specs.Prelude.{◌≡◌, ◌⊎◌, ℕ, List};
ghost use Rattle.drv_scripts.specs.declared.bundle.Bundle.{Bundle};
ghost use Rattle.bundle_text.specs.declared.reason.Reason.{Reason};
ghost use Rattle.drv_scripts.specs.Verdict.{Accepts, Refuses};

/// Bytes have one verdict: they spell one bundle, or are refused at one line for one reason, and never
/// both; and all bytes have one.
pub fn one_verdict()
    ensures one_bundle { (bytes : List ℕ) (a b : Bundle) → Accepts bytes a → Accepts bytes b → a ≡ b }
    ensures one_refusal { (bytes : List ℕ) (line other : ℕ) (reason why : Reason) →
        Refuses bytes line reason → Refuses bytes other why → (line ≡ other) × (reason ≡ why) }
    ensures not_both { (bytes : List ℕ) (b : Bundle) (line : ℕ) (reason : Reason) → Accepts bytes b → Refuses bytes line reason → ⊥ }
    ensures decided { (bytes : List ℕ) → ((b : Bundle) × Accepts bytes b) ⊎ ((line : ℕ) × (reason : Reason) × Refuses bytes line reason) }
{}
