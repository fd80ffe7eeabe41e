//! Laws of sections.

ghost use Rattle.std.specs.Prelude.{◌≡◌, ◌⊎◌, ℕ, List};
ghost use Rattle.bundle_text.specs.declared.reason.Reason.{Reason};
ghost use Rattle.bundle_sections.specs.Said.{Parts};
ghost use Rattle.bundle_sections.specs.Verdict.{Accepts, Refuses};

/// Lines have one verdict: they stand in sections in one way, or are refused at one line for one
/// reason.
pub fn one_verdict()
    ensures one_division { (ls : List (List ℕ)) (a b : Parts) → Accepts ls a → Accepts ls b → a ≡ b }
    ensures one_refusal { (ls : List (List ℕ)) (end line other : ℕ) (reason why : Reason) →
        Refuses ls end line reason → Refuses ls end other why → (line ≡ other) × (reason ≡ why) }
    ensures not_both { (ls : List (List ℕ)) (parts : Parts) (end line : ℕ) (reason : Reason) → Accepts ls parts → Refuses ls end line reason → ⊥ }
    ensures decided { (ls : List (List ℕ)) (end : ℕ) →
        ((parts : Parts) × Accepts ls parts) ⊎ ((line : ℕ) × (reason : Reason) × Refuses ls end line reason) }
{}
