//! The journal of a core.

ghost use Rattle.std.specs.Prelude.{◌≡◌, ◌+◌, ◌^◌, ◌<◌, ◌≤◌, [], ◌∷◌, ◌++◌, IfOk, IsOk, OnOk};

use clk_base::Entry;
use clk_io::NoMemory;
use std::alloc::Global;
use std::marker::Model;

/// A list of entries with room for a stated number.
#[derive(Drop)]
pub(crate) struct Log {
    entries: Vec<Entry>,
}

impl Model for Log {
    ghost use Rattle.std.specs.Prelude.{◌-◌, vec_len, vec_capacity};
    ghost use Rattle.clk_machine.specs.Run.{Logged};

    ghost Value = { Logged };

    ghost view = { λ l. record { entries = l.entries.items; room = vec_capacity l.entries - vec_len l.entries } };
}

impl Log {
    /// An empty list with room for so many entries.
    pub(crate) fn create(alloc: Global, room: u32) -> Result<Log, NoMemory>
        ensures empty { IfOk result (λ log. log.entries ≡ []) }
        ensures room { IfOk result (λ log. log.room ≡ room) }
    {
        Ok(Log {
            entries: Vec::with_capacity(alloc, room as usize)?,
        })
    }

    /// Makes room for the entries of so many credits, for which there is room, and of so many steps.
    /// For no step it takes no memory.
    pub(crate) fn make_room(&mut self, credits: u32, steps: u64) -> Result<(), NoMemory>
        requires paid { credits ≤ self.old.room }
        requires small { steps < 2 ^ 63 }
        ensures entries { self.new.entries ≡ self.old.entries }
        ensures room { OnOk result (credits + steps ≤ self.new.room) }
        ensures kept { self.old.room ≤ self.new.room }
        ensures free { steps ≡ 0 → IsOk result }
    {
        if steps > 0 {
            self.entries.reserve(credits as usize + steps as usize)?;
        }
        Ok(())
    }

    /// Appends an entry. Takes no memory.
    pub(crate) fn push(&mut self, entry: Entry)
        requires { 0 < self.old.room }
        ensures entries { self.new.entries ≡ self.old.entries ++ entry ∷ [] }
        ensures room { self.new.room + 1 ≡ self.old.room }
    {
        self.entries.push_reserved(entry);
    }

    /// The entries.
    pub(crate) fn as_slice(&self) -> &[Entry]
        ensures { result.now ≡ self.now.entries }
    {
        self.entries.as_slice()
    }
}
