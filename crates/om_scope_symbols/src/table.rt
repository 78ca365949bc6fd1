//! Tables of the names of one scope.

ghost use Rattle.std.specs.Prelude.{◌≡◌, ◌<◌, ◌++◌, [], ◌∷◌, false, OnErr, OnOk, is_some, vec_len, vec_capacity};
ghost use Rattle.std.specs.List.{IsDistinct};
ghost use Rattle.std.specs.Map.{keys_of, lookup};
ghost use Rattle.std.specs.Str.{bytes_eq};
ghost use Rattle.om_scope_rules.specs.Scopes.{same_name, scope_of};
ghost use Rattle.om_scope_symbols.specs.Sightings.{TakesLast};
ghost use Rattle.om_scope_symbols.specs.Stacks.{without_innermost};

use om_scope_rules::Meaning;
use om_seq::AllocResult;
use std::alloc::Global;
use std::marker::Model;
use std::mem;

/// The declarations of a scope, each name once. Contracts see them in their order.
pub struct Table {
    // No map: the innermost declaration of each name is found for all scopes at once.
    bindings: Vec<(Vec<u8>, Meaning)>,
}

// By hand: other crates call this, and do not open the table.
impl Drop for Table {
    fn drop(self) {
        let Table {
            bindings: _bindings,
        } = self;
    }
}

impl Model for Table {
    ghost use Rattle.std.specs.List.{IsDistinct};
    ghost use Rattle.std.specs.Map.{keys_of};
    ghost use Rattle.om_scope_rules.specs.Scopes.{Scope, same_name, scope_of};

    ghost Value = { Scope };

    ghost view = { λ s. scope_of s.bindings.items };

    ghost invariant = { λ s. IsDistinct same_name (keys_of s.bindings.items) };
}

impl Table {
    /// Nothing is declared.
    pub fn new(alloc: Global) -> Table
        ensures { result ≡ [] }
    {
        Table {
            bindings: Vec::new(alloc),
        }
    }

    /// The declarations, in their order.
    pub fn as_slice(&self) -> &[(Vec<u8>, Meaning)]
        ensures bindings { scope_of result.now ≡ self.now }
        ensures each_once { IsDistinct same_name (keys_of result.now) }
    {
        self.bindings.as_slice()
    }

    /// Puts a new name into a table, as the last. When out of memory, the table stays.
    pub fn put(&mut self, alloc: Global, name: &[u8], meaning: Meaning) -> AllocResult<()>
        requires is_new { is_some (lookup (bytes_eq name.now) self.old) ≡ false }
        ensures put { OnOk result (self.new ≡ self.old ++ (name.now, meaning) ∷ []) }
        ensures unchanged_on_error { OnErr result (self.new ≡ self.old) }
    {
        self.bindings.reserve(1)?;
        let key = Vec::from_slice(alloc, name)?;
        self.bindings.push_reserved((key, meaning));
        Ok(())
    }

    /// Takes the last name out of a table.
    pub fn pop(&mut self) -> Option<Vec<u8>>
        ensures left { self.new ≡ without_innermost self.old }
        ensures last { TakesLast result self.old self.new }
    {
        let (name, _) = self.bindings.pop()?;
        Some(name)
    }
}

/// Enters a scope, in which nothing is declared yet.
pub fn enter_scope(alloc: Global, inner: &mut Table, outer: &mut Vec<Table>)
    requires has_room { vec_len outer.old < vec_capacity outer.old }
    ensures entered { inner.new ≡ [] }
    ensures outer { outer.new.items ≡ outer.old.items ++ inner.old ∷ [] }
{
    let table = mem::replace(inner, Table::new(alloc));
    match outer.push(table) {
        Ok(()) => {}
        Err(_) => unreachable!(),
    }
}
