//! What the words before a number tell of how big it may be.

ghost use Rattle.std.specs.Prelude.{◌≡◌, ℕ, List, [], ◌∷◌, ◌++◌, ◌||◌, ◌&&◌, not};
ghost use Rattle.std.specs.Str.{bytes_eq};

use crate::number::is_above;

// What one more word makes of whether an opening word is without its closing word.
fn is_still_open(opening: &[u8], closing: &[u8], word: &[u8], was: bool) -> bool
    ensures { result ≡ (bytes_eq word.now opening.now || (not (bytes_eq word.now closing.now) && was)) }
{
    word == opening || (word != closing && was)
}

/// Whether cells, or the numbers of a `/memreserve/`, are open behind some words.
#[derive(Clone, Copy, Debug, PartialEq, Eq)]
pub(crate) struct Scope {
    in_cells: bool,
    in_reserve: bool,
}

impl Scope {
    ghost use Rattle.std.specs.Prelude.{Some, None};
    ghost use Rattle.dts_tokens.specs.Limits.{most_behind, is_too_big};
    ghost use Rattle.dts_tokens.specs.Scopes.{IsScope};

    /// The scope behind no words.
    pub(crate) fn new() -> Scope
        ensures { IsScope [] result }
    {
        Scope {
            in_cells: false,
            in_reserve: false,
        }
    }

    /// Goes on behind one more word.
    #[tactic(auto, using(crate::proofs::Opened::pushed))]
    pub(crate) fn pass(&mut self, word: &[u8])
        ensures { (words : List (List ℕ)) → IsScope words self.old → IsScope (words ++ word.now ∷ []) self.new }
    {
        self.in_cells = is_still_open(b"<", b">", word, self.in_cells);
        self.in_reserve = is_still_open(b"/memreserve/", b";", word, self.in_reserve);
    }

    // The most that a number may be here.
    #[tactic(auto, unfolding(crate::specs::Limits::most_behind))]
    fn most(&self) -> Option<u64>
        ensures { (words : List (List ℕ)) → IsScope words self.now → result ≡ most_behind words }
    {
        if self.in_cells {
            Some(u64::from(u32::MAX))
        } else if self.in_reserve {
            Some(u64::MAX)
        } else {
            None
        }
    }

    /// The word is a number that is too big here.
    #[tactic(auto, unfolding(crate::specs::Limits::is_too_big))]
    pub(crate) fn is_too_big(&self, word: &[u8]) -> bool
        ensures { (words : List (List ℕ)) → IsScope words self.now → result ≡ is_too_big words word.now }
    {
        match self.most() {
            Some(most) => is_above(most, word),
            None => false,
        }
    }
}
