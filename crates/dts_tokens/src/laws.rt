//! Laws of what a text is cut into.

ghost use Rattle.std.specs.Prelude.{◌≡◌, ◌⊎◌, ℕ, List};
ghost use Rattle.dts_tokens.specs.declared.flaw.Flaw.{Flaw};
ghost use Rattle.dts_tokens.specs.declared.token.Token.{Token};
ghost use Rattle.dts_tokens.specs.Tokens.{Tokens, Refuses};

/// A text is cut in one way: into one list of tokens, or up to one flaw on one line.
pub fn one_reading()
    ensures one_list { (text : List ℕ) (found other : List Token) → Tokens text found → Tokens text other → found ≡ other }
    ensures one_flaw { (text : List ℕ) (flaw why : Flaw) (line other : ℕ) →
        Refuses text flaw line → Refuses text why other → (flaw ≡ why) × (line ≡ other) }
    ensures not_both { (text : List ℕ) (found : List Token) (flaw : Flaw) (line : ℕ) → Tokens text found → Refuses text flaw line → ⊥ }
    ensures decided { (text : List ℕ) → ((found : List Token) × Tokens text found) ⊎ ((flaw : Flaw) × (line : ℕ) × Refuses text flaw line) }
{}
