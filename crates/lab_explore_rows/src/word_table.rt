//! Lists of words, each with its number.

ghost use Rattle.std.specs.Prelude.{◌≡◌, ◌++◌, ◌∷◌, ◌+◌, ◌<◌, ◌^◌, [], None, IfOk, OnOk, OnErr, IfSome, length};
ghost use Rattle.lab_explore_rows.specs.WordTables.{number_of};

use indexmap::IndexSet;
use om_seq::AllocResult;
use std::alloc::{AllocError, Global};
use std::marker::Model;

// At most so many lists: a number and the one above it are words.
const MOST: usize = 0xffff_ffff;

/// Lists of words that differ, each with its number: how many came before it.
///
/// Contracts see the lists, in the order in which they came.
#[derive(Drop)]
pub struct WordTable {
    lists: IndexSet<Vec<u32>>,
}

impl Model for WordTable {
    ghost use Rattle.std.specs.Prelude.{List, ℕ, length, ◌<◌, ◌^◌};
    ghost use Rattle.lab_explore_rows.specs.WordTables.{lists_of};

    ghost Value = { List (List ℕ) };

    ghost view = { λ t. lists_of t.lists.keys };

    ghost invariant = { λ t. length t.lists.keys < 2 ^ 32 };
}

impl WordTable {
    /// No lists. It takes no memory.
    pub fn new(alloc: Global) -> WordTable
        ensures { result ≡ [] }
    {
        WordTable {
            lists: IndexSet::new(alloc),
        }
    }

    /// How many lists there are.
    pub fn len(&self) -> usize
        ensures { result ≡ length self.now }
    {
        self.lists.len()
    }

    /// The number of a list of words; `None` where it is not there.
    pub fn number(&self, words: &[u32]) -> Option<u32>
        ensures number { result ≡ number_of self.now words.now }
        ensures small { IfSome result (λ number. number + 1 < 2 ^ 32) }
    {
        let number = self.lists.get_index_of(words)?;
        Some(number as u32)
    }

    /// Gives the next number to a list that has none. Out of memory is its only error, also where 2^32 - 1 lists are
    /// there; then nothing changes.
    pub fn add(&mut self, alloc: Global, words: &[u32]) -> AllocResult<u32>
        requires { number_of self.old words.now ≡ None }
        ensures number { IfOk result (λ number. number ≡ length self.old) }
        ensures small { IfOk result (λ number. number + 1 < 2 ^ 32) }
        ensures added { OnOk result (self.new ≡ self.old ++ words.now ∷ []) }
        ensures unchanged_on_error { OnErr result (self.new ≡ self.old) }
    {
        let number = self.lists.len();
        if number + 1 >= MOST {
            return Err(AllocError);
        }
        self.lists.insert(Vec::from_slice(alloc, words)?)?;
        Ok(number as u32)
    }
}
