//! The words of a line, without memory.

ghost use Rattle.std.specs.Prelude.{◌≡◌, ◌<◌, ◌≤◌, ◌==◌, None, length, take, IfSome};
ghost use Rattle.std.specs.List.{slice_split};
ghost use Rattle.clk_journal.specs.Words.{texts};

/// Splits a line at its spaces into this room, and tells how many words it has. None where there is
/// no room for all.
pub(super) fn words_in<'a>(line: &'a str, room: &mut [&'a str]) -> Option<usize>
    ensures words { IfSome result (λ n. texts (take n room.new) ≡ slice_split (λ b. b == 32) line.now) }
    ensures fits { IfSome result (λ n. n ≤ length room.new) }
    ensures more { result ≡ None → length room.old < length (slice_split (λ b. b == 32) line.now) }
{
    let mut rest = line;
    for at in 0..room.len() {
        let Some((word, more)) = rest.split_once(' ') else {
            room[at] = rest;
            return Some(at + 1);
        };
        room[at] = word;
        rest = more;
    }
    None
}
