//! The variables of a driver.

ghost use Rattle.std.specs.Prelude.{◌≡◌, ◌<◌, ◌≤◌, [], length, position, Some, IfOk, OnOk, is_some};
ghost use Rattle.std.specs.Str.{bytes_eq};
ghost use Rattle.drv_scripts.specs.Commands.{with_variable};

use clk_io::NoMemory;
use indexmap::IndexSet;
use std::alloc::Global;
use std::marker::Model;

/// The variables in the order of their first `get`, seen by contracts as the list of their names.
#[derive(Drop)]
pub(crate) struct Variables<'a> {
    names: IndexSet<&'a str>,
}

impl<'a> Model for Variables<'a> {
    ghost use Rattle.std.specs.Prelude.{List, ℕ};
    ghost use Rattle.bundle_text.specs.Words.{texts};

    ghost Value = { List (List ℕ) };

    ghost view = { λ v. texts v.names.keys };
}

impl<'a> Variables<'a> {
    /// No variables.
    pub(crate) fn new(alloc: Global) -> Variables<'a>
        ensures { result ≡ [] }
    {
        Variables {
            names: IndexSet::new(alloc),
        }
    }

    /// The number of a variable, if it is one of them.
    pub(crate) fn number(&self, var: &'a str) -> Option<u32>
        requires { length self.now ≤ 65536 }
        ensures { result ≡ position (bytes_eq var.now) self.now }
    {
        match self.names.get_index_of(&var) {
            None => None,
            Some(place) => Some(place as u32),
        }
    }

    /// Whether a variable is one of them.
    pub(crate) fn has(&self, var: &'a str) -> bool
        requires { length self.now ≤ 65536 }
        ensures { result ≡ is_some (position (bytes_eq var.now) self.now) }
    {
        self.number(var).is_some()
    }

    /// The number of a variable, which is added if it is new.
    pub(crate) fn add(&mut self, var: &'a str) -> Result<u32, NoMemory>
        requires { length self.old < 65536 }
        ensures number { IfOk result (λ n. position (bytes_eq var.now) self.new ≡ Some n) }
        ensures after { OnOk result (self.new ≡ with_variable self.old var.now) }
    {
        let (place, _) = self.names.insert_full(var)?;
        Ok(place as u32)
    }
}
