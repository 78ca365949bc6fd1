//! A set of names, and what names are declared as.

ghost use Rattle.std.specs.Prelude.{◌≡◌, [], OnErr, OnOk, length, map, position};
ghost use Rattle.std.specs.List.{IsDistinct, list_any};
ghost use Rattle.std.specs.Str.{bytes_eq};
ghost use Rattle.om_scope_rules.specs.NameLists.{same_name, with_name};

use om_scope_tree::{Shape, Variable};
use om_seq::AllocResult;
use std::alloc::Global;
use std::collections::BTreeMap;
use std::marker::Model;

/// Names, each once. Contracts see them in the order in which they were added.
pub struct Names {
    // A list with a map beside it: crates that depend on a public `IndexSet` load all of its library.
    names: Vec<Vec<u8>>,
    places: BTreeMap<Vec<u8>, usize>,
}

// By hand: what has names calls this, and does not open their table.
impl Drop for Names {
    fn drop(self) {
        let Names {
            names: _names,
            places: _places,
        } = self;
    }
}

impl Model for Names {
    ghost use Rattle.std.specs.Prelude.{ℕ, List, map};
    ghost use Rattle.std.specs.List.{IsDistinct};
    ghost use Rattle.om_scope_rules.specs.NameLists.{ArePlaces, same_name};

    ghost Value = { List (List ℕ) };

    ghost view = { λ s. map (λ name. name.items) s.names.items };

    ghost invariant = { λ s. IsDistinct same_name s.names.items
        × ArePlaces (map (λ name. name.items) s.names.items) s.places.entries };
}

impl Names {
    /// No names.
    pub fn new(alloc: Global) -> Names
        ensures { result ≡ [] }
    {
        Names {
            names: Vec::new(alloc),
            places: BTreeMap::new(alloc),
        }
    }

    /// Whether a name is among them.
    pub fn contains(&self, name: &[u8]) -> bool
        ensures { result ≡ list_any (bytes_eq name.now) self.now }
    {
        self.places.contains_key(name)
    }

    /// The place of a name among them, in the order in which they were added.
    pub fn position(&self, name: &[u8]) -> Option<usize>
        ensures { result ≡ position (bytes_eq name.now) self.now }
    {
        self.places.get(name).copied()
    }

    /// All of them, in the order in which they were added.
    pub fn as_slice(&self) -> &[Vec<u8>]
        ensures names { map (λ name. name.items) result.now ≡ self.now }
        ensures each_once { IsDistinct same_name result.now }
    {
        self.names.as_slice()
    }

    /// How many there are.
    pub fn len(&self) -> usize
        ensures { result ≡ length self.now }
    {
        self.names.len()
    }

    /// Adds a name, unless it is there. When out of memory, nothing changes.
    pub fn add(&mut self, alloc: Global, name: &[u8]) -> AllocResult<()>
        ensures added { OnOk result (self.new ≡ with_name self.old name.now) }
        ensures unchanged_on_error { OnErr result (self.new ≡ self.old) }
    {
        if self.places.contains_key(name) {
            return Ok(());
        }
        self.names.reserve(1)?;
        let key = Vec::from_slice(alloc, name)?;
        let name = Vec::from_slice(alloc, name)?;
        self.places.insert(key, self.names.len())?;
        self.names.push_reserved(name);
        Ok(())
    }
}

/// What a call of a function needs and gives.
#[derive(Clone, Copy)]
pub struct Signature {
    /// Whether it returns an `int`; else nothing.
    pub returns: bool,
    /// How many parameters it has, each an `int`.
    pub parameters: usize,
}

/// What a name is declared as.
#[derive(Clone, Copy)]
pub enum Meaning {
    /// A global, a parameter or a variable of a function.
    Variable(Variable, Shape),
    Function(Signature),
    /// The function `printf`, whose calls have rules of their own.
    Printf,
}
