//! The variables of a body, by their slots, and the scopes of their names.

ghost use Rattle.std.specs.Prelude.{◌≡◌, ◌≤◌, [], OnOk, length, nat_eq};
ghost use Rattle.om_lower_rules.specs.Slots.{slot_of};
ghost use Rattle.om_lower_rules.specs.Tables.{with_sight};

use om_scope_tree::uses::Sighting;
use om_seq::{AllocResult, Seq};
use std::alloc::Global;
use std::collections::BTreeMap;
use std::marker::Model;

/// A stretch of a body's code in which a name means a variable of the function (C17 6.2.1).
#[derive(Drop)]
pub struct VariableScope {
    /// The bytes of the name.
    pub name: Seq<u8>,
    /// The number of the variable in its function.
    pub variable: u32,
    /// How many elements the variable has, where it is an array.
    pub length: Option<u32>,
    /// The place of the first instruction in the stretch.
    pub from: usize,
    /// The place behind the last one; that of the first one while the scope is open.
    pub to: usize,
}

/// The variables of a function that a body has, each once. Contracts see them in the order of their
/// slots, which are numbered from 0.
#[derive(Drop)]
pub struct Variables {
    // A list with a map beside it: crates that depend on a public `IndexSet` load all of its library.
    seen: Vec<u32>,
    slots: BTreeMap<u32, usize>,
}

impl Model for Variables {
    ghost use Rattle.std.specs.Prelude.{ℕ, List};
    ghost use Rattle.om_lower_rules.specs.Indexes.{AreNumbers};

    ghost Value = { List ℕ };

    ghost view = { λ s. s.seen.items };

    ghost invariant = { λ s. AreNumbers s.seen.items s.slots.entries };
}

impl Variables {
    /// None.
    pub fn new(alloc: Global) -> Variables
        ensures { result ≡ [] }
    {
        Variables {
            seen: Vec::new(alloc),
            slots: BTreeMap::new(alloc),
        }
    }

    /// The variables, by their slots.
    pub fn as_slice(&self) -> &[u32]
        ensures { result.now ≡ self.now }
    {
        self.seen.as_slice()
    }

    /// How many slots there are.
    pub fn len(&self) -> usize
        ensures { result ≡ length self.now }
    {
        self.seen.len()
    }

    /// The slot of a variable; of one that is not there, the number behind all slots.
    pub fn slot_of(&self, variable: u32) -> usize
        ensures exact { result ≡ slot_of self.now variable }
        ensures least { result ≤ length self.now }
    {
        let slot = self.slots.get(&variable).copied();
        slot.unwrap_or(self.seen.len())
    }

    /// Gives a variable the next slot, unless it has one.
    pub fn add(&mut self, variable: u32) -> AllocResult<()>
        ensures { OnOk result (self.new ≡ with_sight nat_eq self.old variable) }
    {
        if self.slots.contains_key(&variable) {
            return Ok(());
        }
        self.seen.reserve(1)?;
        self.slots.insert(variable, self.seen.len())?;
        self.seen.push_reserved(variable);
        Ok(())
    }
}

impl Sighting for Variables {
    ghost use Rattle.std.specs.Prelude.{nat_eq};
    ghost use Rattle.om_lower_rules.specs.Tables.{with_sight};

    ghost next = { with_sight nat_eq };

    fn see(&mut self, variable: u32) -> AllocResult<()> {
        self.add(variable)
    }
}
