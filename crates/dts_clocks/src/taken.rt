//! The names that clocks have.

ghost use Rattle.std.specs.Prelude.{◌≡◌, ◌++◌, ◌∷◌, [], not, IfOk};
ghost use Rattle.std.specs.Bool.{OnTrue};
ghost use Rattle.std.specs.List.{list_any};
ghost use Rattle.std.specs.Str.{bytes_eq};

use clk_io::NoMemory;
use indexmap::IndexSet;
use std::alloc::Global;
use std::marker::Model;

/// The names that are taken, in the order in which they were. A contract sees their bytes.
#[derive(Drop)]
pub(crate) struct TakenNames {
    names: IndexSet<String>,
}

impl Model for TakenNames {
    ghost use Rattle.std.specs.Prelude.{ℕ, List, map, string_bytes};

    ghost Value = { List (List ℕ) };

    ghost view = { λ taken. map string_bytes taken.names.keys };
}

impl TakenNames {
    /// No name is taken.
    pub(crate) fn new(alloc: Global) -> TakenNames
        ensures { result ≡ [] }
    {
        TakenNames {
            names: IndexSet::new(alloc),
        }
    }

    /// Takes a name. False where it is taken.
    pub(crate) fn take(&mut self, alloc: Global, name: &str) -> Result<bool, NoMemory>
        ensures fresh { IfOk result (λ fresh. fresh ≡ not (list_any (bytes_eq name.now) self.old)) }
        ensures taken { IfOk result (λ fresh. OnTrue fresh (self.new ≡ self.old ++ name.now ∷ [])) }
    {
        if self.names.contains(name) {
            return Ok(false);
        }
        let own = String::from_str(alloc, name)?;
        self.names.insert(own)?;
        Ok(true)
    }
}
