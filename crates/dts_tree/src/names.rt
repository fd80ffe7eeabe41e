//! The names that are taken.

ghost use Rattle.std.specs.Prelude.{◌≡◌, ◌++◌, ◌∷◌, [], map, OnOk, IfErr, false};
ghost use Rattle.dts_tree.specs.Taken.{taken_of, is_taken, name_in, IsRefused};

use crate::fault::TreeFault;
use indexmap::IndexSet;

/// A name in its scope: of a child in its parent, of a property in its node, of a label anywhere.
#[derive(Clone, Copy, Debug, PartialEq, Eq, Hash)]
pub(crate) struct Place<'a> {
    pub scope: usize,
    pub text: &'a [u8],
}

/// Takes a name, or tells that it is taken; the line is that of the name.
pub(crate) fn note<'a>(
    taken: &mut IndexSet<Place<'a>>,
    scope: usize,
    text: &'a [u8],
    line: u32,
) -> Result<(), TreeFault>
    ensures new { OnOk result (is_taken (name_in scope text.now) (map taken_of taken.old.keys) ≡ false) }
    ensures keys { OnOk result (map taken_of taken.new.keys ≡ map taken_of taken.old.keys ++ name_in scope text.now ∷ []) }
    ensures err { IfErr result (λ e. IsRefused e line (is_taken (name_in scope text.now) (map taken_of taken.old.keys))) }
{
    let place = Place { scope, text };
    if taken.contains(&place) {
        return Err(TreeFault::TwiceDefined(line));
    }
    taken.insert(place)?;
    Ok(())
}
