ghost use Rattle.std.specs.Prelude.{◌≡◌, ◌++◌, OnOk, OnErr};
ghost use Rattle.std.specs.Option.{option_to_list};

use crate::faults::NoMemory;

/// One element more at the end of a list, if there is one. After want of memory the list is as
/// before, and the element is lost.
pub fn push_some<T: Drop>(found: &mut Vec<T>, more: Option<T>) -> Result<(), NoMemory>
    ensures pushed { OnOk result (found.new.items ≡ found.old.items ++ option_to_list more) }
    ensures kept { OnErr result (found.new.items ≡ found.old.items) }
{
    let Some(element) = more else {
        return Ok(());
    };
    found.push(element)?;
    Ok(())
}
