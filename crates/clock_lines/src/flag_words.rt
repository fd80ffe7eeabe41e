//! The flag words behind the parameters of a clock line.

ghost use Rattle.std.specs.Prelude.{◌≡◌, ◌||◌, ◌&&◌, ◌==◌, count_by};
ghost use Rattle.std.specs.Str.{bytes_eq};
ghost use Rattle.bundle_text.specs.Words.{texts};
ghost use Rattle.clock_lines.specs.FlagWords.{stands, is_common_flag, is_own_flag, are_flags, flag_bit, flags_of_words, are_known};

use bitflags::Flags;
use clk_base::{ClkFlags, Kind};

/// The word is one of the words.
pub(crate) fn stands(word: &str, words: &[&str]) -> bool
    ensures { result ≡ stands word.now (texts words.now) }
{
    words.iter().any(|other| word == *other)
}

// How often the word is one of the words.
fn times(word: &str, words: &[&str]) -> usize
    ensures { result ≡ count_by (bytes_eq word.now) (texts words.now) }
{
    words.iter().filter(|other| word == **other).count()
}

// The word is a flag of every kind.
#[tactic(auto, unfolding(crate::specs::FlagWords::is_common_flag))]
fn is_common_flag(word: &str) -> bool
    ensures { result ≡ is_common_flag word.now }
{
    word == "set-rate-gate"
        || word == "set-parent-gate"
        || word == "set-rate-parent"
        || word == "ignore-unused"
        || word == "no-reparent"
        || word == "critical"
        || word == "ops-parent-enable"
        || word == "set-rate-ungate"
}

// The word is a flag of this kind alone.
#[tactic(auto, unfolding(crate::specs::FlagWords::is_own_flag))]
fn is_own_flag(kind: Kind, word: &str) -> bool
    ensures { result ≡ is_own_flag kind word.now }
{
    match kind {
        Kind::FixedRate { .. } => false,
        Kind::Factor { .. } => false,
        Kind::Gate { .. } => word == "set-to-disable",
        Kind::Mux { .. } => word == "read-only",
        Kind::Divider { .. } => word == "one-based" || word == "power-of-two",
        Kind::Pll { .. } => false,
    }
}

// The word is a flag word that a clock of this kind may have, and stands once among the words.
fn is_flag_once(kind: Kind, word: &str, words: &[&str]) -> bool
    ensures { result ≡ ((is_common_flag word.now || is_own_flag kind word.now) && (count_by (bytes_eq word.now) (texts words.now) == 1)) }
{
    (is_common_flag(word) || is_own_flag(kind, word)) && times(word, words) == 1
}

/// Each word is a flag word that a clock of this kind may have, and stands once. At most ten words
/// pass before one fails, so this takes time in proportion to the words.
#[tactic(auto, unfolding(crate::specs::FlagWords::are_flags))]
pub(crate) fn are_flags(kind: Kind, words: &[&str]) -> bool
    ensures { result ≡ are_flags kind (texts words.now) }
{
    words.iter().all(|word| is_flag_once(kind, word, words))
}

// The flag, where its word is one of the words.
fn flag_of(flag: ClkFlags, word: &str, words: &[&str]) -> ClkFlags
    ensures { result.0 ≡ flag_bit flag.0 word.now (texts words.now) }
{
    if stands(word, words) {
        flag
    } else {
        ClkFlags::empty()
    }
}

/// The flags whose words are among the words.
#[tactic(auto, unfolding(crate::specs::FlagWords::flags_of_words))]
pub(crate) fn flags_of_words(words: &[&str]) -> ClkFlags
    ensures { result ≡ flags_of_words (texts words.now) }
{
    let rate_gate = flag_of(ClkFlags::SET_RATE_GATE, "set-rate-gate", words);
    let parent_gate = flag_of(ClkFlags::SET_PARENT_GATE, "set-parent-gate", words);
    let rate_parent = flag_of(ClkFlags::SET_RATE_PARENT, "set-rate-parent", words);
    let unused = flag_of(ClkFlags::IGNORE_UNUSED, "ignore-unused", words);
    let no_reparent = flag_of(ClkFlags::NO_REPARENT, "no-reparent", words);
    let critical = flag_of(ClkFlags::CRITICAL, "critical", words);
    let parent_enable = flag_of(ClkFlags::OPS_PARENT_ENABLE, "ops-parent-enable", words);
    let ungate = flag_of(ClkFlags::SET_RATE_UNGATE, "set-rate-ungate", words);
    let gates = rate_gate.union(parent_gate);
    let rates = rate_parent.union(unused);
    let rest = no_reparent.union(critical);
    let runs = parent_enable.union(ungate);
    gates.union(rates).union(rest.union(runs))
}

/// A bundle of this version knows these flags.
#[tactic(auto, unfolding(crate::specs::FlagWords::are_known))]
pub(crate) fn are_known(version: u32, flags: ClkFlags) -> bool
    ensures { result ≡ are_known version flags }
{
    version == 2
        || !(flags.contains(ClkFlags::OPS_PARENT_ENABLE)
            || flags.contains(ClkFlags::SET_RATE_UNGATE))
}
