//! The variables that a region takes from outside.

ghost use Rattle.std.specs.Prelude.{◌≡◌, [], nat_eq};
ghost use Rattle.std.specs.List.{list_any};

use crate::uses::Sighting;
use indexmap::IndexSet;
use om_seq::AllocResult;
use std::alloc::Global;
use std::marker::Model;

/// Variables of a function that a region takes from outside, each once. Contracts see them in the
/// order in which they were found.
pub struct Found {
    // Where the region begins: what is declared from there on is no variable from outside.
    start: u32,
    variables: IndexSet<u32>,
}

// By hand: each way out of a function calls this, and does not open the table.
impl Drop for Found {
    fn drop(self) {
        let Found {
            start: _start,
            variables: _variables,
        } = self;
    }
}

impl Model for Found {
    ghost use Rattle.om_scope_tree.specs.FoundVariables.{FoundVariables};

    ghost Value = { FoundVariables };

    ghost view = { λ s. record { start = s.start; variables = s.variables.keys } };
}

impl Found {
    /// None, of a region that begins there.
    pub fn new(alloc: Global, start: u32) -> Found
        ensures { result ≡ record { start = start; variables = [] } }
    {
        Found {
            start,
            variables: IndexSet::new(alloc),
        }
    }

    /// Those that were found, in order.
    pub fn variables(&self) -> &[u32]
        ensures { result.now ≡ self.now.variables }
    {
        self.variables.as_slice()
    }

    /// Whether a variable is among them.
    pub fn contains(&self, variable: u32) -> bool
        ensures { result ≡ list_any (nat_eq variable) self.now.variables }
    {
        self.variables.contains(&variable)
    }
}

impl Sighting for Found {
    ghost use Rattle.om_scope_tree.specs.FoundVariables.{with_found};

    ghost next = { with_found };

    fn see(&mut self, variable: u32) -> AllocResult<()> {
        if variable < self.start {
            self.variables.insert(variable)?;
        }
        Ok(())
    }
}
