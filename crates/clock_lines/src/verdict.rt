//! Laws of what clock lines spell.

ghost use Rattle.std.specs.Prelude.{◌≡◌, ◌⊎◌, ℕ, List};
ghost use Rattle.clk_base.specs.Description.{Description};
ghost use Rattle.bundle_text.specs.declared.reason.Reason.{Reason};
ghost use Rattle.clock_lines.specs.Verdict.{Spells, Refuses};

/// Lines have one verdict in each version: they spell one description, or are refused at one line for one reason.
pub fn one_verdict()
    ensures one_description { (version from : ℕ) (section : List (List ℕ)) (desc other : Description) (lines numbers : List ℕ) →
        Spells version from section desc lines → Spells version from section other numbers → (desc ≡ other) × (lines ≡ numbers) }
    ensures one_refusal { (version from : ℕ) (section : List (List ℕ)) (line other : ℕ) (reason why : Reason) →
        Refuses version from section line reason → Refuses version from section other why → (line ≡ other) × (reason ≡ why) }
    ensures not_both { (version from : ℕ) (section : List (List ℕ)) (desc : Description) (lines : List ℕ) (line : ℕ) (reason : Reason) →
        Spells version from section desc lines → Refuses version from section line reason → ⊥ }
    ensures decided { (version from : ℕ) (section : List (List ℕ)) →
        ((desc : Description) × (lines : List ℕ) × Spells version from section desc lines)
        ⊎ ((line : ℕ) × (reason : Reason) × Refuses version from section line reason) }
{}
