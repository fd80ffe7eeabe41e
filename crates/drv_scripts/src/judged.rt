//! A line by its words.

ghost use Rattle.std.specs.Prelude.{◌≡◌};
ghost use Rattle.bundle_text.specs.Words.{texts};
ghost use Rattle.drv_scripts.specs.Judged.{words_fault, words_say, ReadsLine};

use crate::stop::{Stop, stopped};
use bundle_text::Reason;

/// What the words of the line at a place say, where it has words, or the fault of the line.
pub(crate) fn judged<T: Drop>(
    words: &[&str],
    at: usize,
    said: Result<T, Reason>,
) -> Result<Option<T>, Stop>
    ensures { ReadsLine (words_fault (texts words.now) said) at (λ found. found ≡ words_say (texts words.now) said) result }
{
    if words.is_empty() {
        return Ok(None);
    }
    match said {
        Ok(said) => Ok(Some(said)),
        Err(reason) => Err(stopped(at, reason)),
    }
}
