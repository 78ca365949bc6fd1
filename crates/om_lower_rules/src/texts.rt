//! Texts by numbers: formats, and names of critical regions.

ghost use Rattle.std.specs.Prelude.{◌≡◌, ◌<◌, ◌≤◌, [], OnOk, length, option_map, slice_get};
ghost use Rattle.std.specs.Str.{bytes_eq};
ghost use Rattle.om_lower_rules.specs.Tables.{number_in, with_sight};

use om_seq::AllocResult;
use std::alloc::Global;
use std::collections::BTreeMap;
use std::marker::Model;

/// Texts, each once. Contracts see them in the order of their numbers, which count from 0.
#[derive(Drop)]
pub struct Texts {
    texts: Vec<Vec<u8>>,
    numbers: BTreeMap<Vec<u8>, usize>,
}

impl Model for Texts {
    ghost use Rattle.std.specs.Prelude.{ℕ, ◌≤◌, List, length, map};
    ghost use Rattle.om_lower_rules.specs.Indexes.{AreTextNumbers};

    ghost Value = { List (List ℕ) };

    ghost view = { λ s. map (λ text. text.items) s.texts.items };

    ghost invariant = { λ s. (length s.texts.items ≤ 4294967295)
        × AreTextNumbers (map (λ text. text.items) s.texts.items) s.numbers.entries };
}

impl Texts {
    /// None.
    pub fn new(alloc: Global) -> Texts
        ensures { result ≡ [] }
    {
        Texts {
            texts: Vec::new(alloc),
            numbers: BTreeMap::new(alloc),
        }
    }

    /// How many there are.
    pub fn len(&self) -> usize
        ensures all { result ≡ length self.now }
        ensures numbered { result ≤ 4294967295 }
    {
        self.texts.len()
    }

    /// The text of a number; `None` where there is no such number.
    pub fn text(&self, number: usize) -> Option<&[u8]>
        ensures { option_map (λ text. text.now) result ≡ slice_get self.now number }
    {
        let text = self.texts.get(number)?;
        Some(text.as_slice())
    }

    /// The number of a text; of one that is not there, the number behind all of them.
    pub fn number_of(&self, text: &[u8]) -> u32
        ensures { result ≡ number_in (bytes_eq text.now) self.now }
    {
        let number = self.numbers.get(text).copied();
        number.unwrap_or(self.texts.len()) as u32
    }

    /// Gives a text the next number, unless it has one. The number behind all of them has 32 bits too.
    pub fn note(&mut self, alloc: Global, text: &[u8]) -> AllocResult<()>
        requires { length self.old < 4294967295 }
        ensures { OnOk result (self.new ≡ with_sight bytes_eq self.old text.now) }
    {
        if self.numbers.contains_key(text) {
            return Ok(());
        }
        self.texts.reserve(1)?;
        let key = Vec::from_slice(alloc, text)?;
        let text = Vec::from_slice(alloc, text)?;
        self.numbers.insert(key, self.texts.len())?;
        self.texts.push_reserved(text);
        Ok(())
    }
}
