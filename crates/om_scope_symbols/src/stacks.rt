//! Names, each with a stack of items. The innermost of a name is found at once, however many stand round it.

ghost use Rattle.std.specs.Prelude.{◌≡◌, [], OnOk, OnErr};
ghost use Rattle.om_scope_symbols.specs.Stacks.{ChangedAt, Unchanged, innermost_of, seen_in, with_innermost, without_innermost};

use om_seq::AllocResult;
use std::alloc::Global;
use std::collections::BTreeMap;
use std::marker::Model;

/// Names, each with a stack of items. Contracts see each name with its items, the innermost last.
#[derive(Drop)]
pub struct Stacks<T> {
    names: BTreeMap<Vec<u8>, Vec<T>>,
}

impl<T> Model for Stacks<T> {
    ghost use Rattle.std.specs.Prelude.{ℕ, List};
    ghost use Rattle.om_scope_symbols.specs.Stacks.{table_of};

    ghost Value = { List (List ℕ × List T) };

    ghost view = { λ s. table_of s.names.entries };
}

impl<T: Copy + Drop> Stacks<T> {
    /// None.
    pub fn new(alloc: Global) -> Stacks<T>
        ensures { result ≡ [] }
    {
        Stacks {
            names: BTreeMap::new(alloc),
        }
    }

    /// The items of a name, the innermost last.
    pub fn items(&self, name: &[u8]) -> &[T]
        ensures { result.now ≡ seen_in self.now name.now }
    {
        match self.names.get(name) {
            Some(seen) => seen.as_slice(),
            None => &[],
        }
    }

    /// The innermost item of a name.
    pub fn innermost(&self, name: &[u8]) -> Option<T>
        ensures { result ≡ innermost_of (seen_in self.now name.now) }
    {
        let (item, _) = self.items(name).split_last()?;
        Some(*item)
    }

    /// Notes an item of a name, as its innermost. When out of memory, nothing changes.
    pub fn note(&mut self, alloc: Global, name: &[u8], item: T) -> AllocResult<()>
        ensures noted { OnOk result (ChangedAt (with_innermost item) self.old self.new name.now) }
        ensures unchanged_on_error { OnErr result (Unchanged self.old self.new) }
    {
        match self.names.get_mut(name) {
            Some(seen) => {
                seen.push(item)?;
                Ok(())
            }
            None => {
                let mut seen = Vec::new(alloc);
                seen.push(item)?;
                self.names.insert(Vec::from_slice(alloc, name)?, seen)?;
                Ok(())
            }
        }
    }

    /// Forgets the innermost item of a name.
    pub fn forget(&mut self, name: &[u8])
        ensures { ChangedAt without_innermost self.old self.new name.now }
    {
        if let Some(seen) = self.names.get_mut(name) {
            let _innermost = seen.pop();
        }
    }
}
