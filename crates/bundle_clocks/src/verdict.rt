//! Laws of what the section of the clocks says.

ghost use Rattle.std.specs.Prelude.{◌≡◌, ◌⊎◌, ℕ, List};
ghost use Rattle.bundle_sections.specs.declared.section.ClockSection.{ClockSection};
ghost use Rattle.bundle_text.specs.declared.reason.Reason.{Reason};
ghost use Rattle.bundle_clocks.specs.Said.{SaidClocks};
ghost use Rattle.bundle_clocks.specs.Verdict.{Says, Refuses};

/// A section has one verdict: it says these clocks, or is refused at one line for one reason, and
/// never both; and each section has one.
pub fn one_verdict()
    ensures one_meaning { (ls : List (List ℕ)) (s : ClockSection) (a b : SaidClocks) → Says ls s a → Says ls s b → a ≡ b }
    ensures one_refusal { (ls : List (List ℕ)) (s : ClockSection) (line other : ℕ) (reason why : Reason) →
        Refuses ls s line reason → Refuses ls s other why → (line ≡ other) × (reason ≡ why) }
    ensures not_both { (ls : List (List ℕ)) (s : ClockSection) (a : SaidClocks) (line : ℕ) (reason : Reason) → Says ls s a → Refuses ls s line reason → ⊥ }
    ensures decided { (ls : List (List ℕ)) (s : ClockSection) →
        ((a : SaidClocks) × Says ls s a) ⊎ ((line : ℕ) × (reason : Reason) × Refuses ls s line reason) }
{}
