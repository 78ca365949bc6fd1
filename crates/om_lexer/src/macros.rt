//! The names that are defined as numbers.

ghost use Rattle.std.specs.Prelude.{◌≡◌, ◌≤◌, ◌↔◌, [], length, IsTrue, OnOk};
ghost use Rattle.om_lexer.specs.Macros.{DefinesMacro, macro_limit, number_of_macro, with_macro, replaced};

use crate::spelling::keyword_text;
use crate::token::TokenKind;
use indexmap::IndexMap;
use om_seq::AllocResult;
use std::alloc::Global;
use std::marker::Model;

// The names that a source may define.
const MACRO_LIMIT: usize = 1024;

/// The macros up to a place. Contracts see them in the order of their first defines.
#[derive(Drop)]
pub struct Macros {
    numbers: IndexMap<Vec<u8>, u32>,
}

impl Model for Macros {
    ghost use Rattle.om_lexer.specs.Macros.{MacroList, macros_of};

    ghost Value = { MacroList };

    ghost view = { λ m. macros_of m.numbers.entries };
}

// Puts a name into a table that has it not yet, or leaves the table as it is.
fn put(
    numbers: &mut IndexMap<Vec<u8>, u32>,
    alloc: Global,
    name: &[u8],
    number: u32,
) -> AllocResult<()>
    ensures { OnOk result (DefinesMacro numbers.old.entries numbers.new.entries name.now number) }
{
    if numbers.contains_key(name) {
        return Ok(());
    }
    numbers.insert(Vec::from_slice(alloc, name)?, number)?;
    Ok(())
}

impl Macros {
    /// No macros.
    pub(crate) fn new(alloc: Global) -> Macros
        ensures { result ≡ [] }
    {
        Macros {
            numbers: IndexMap::new(alloc),
        }
    }

    /// The number that a name is defined as.
    pub(crate) fn number(&self, name: &[u8]) -> Option<u32>
        ensures { result ≡ number_of_macro self.now name.now }
    {
        self.numbers.get(name).copied()
    }

    /// Whether there is no room for a further name.
    pub(crate) fn is_full(&self) -> bool
        ensures { IsTrue result ↔ (macro_limit ≤ length self.now) }
    {
        self.numbers.len() >= MACRO_LIMIT
    }

    /// Defines a name, unless it is defined.
    pub(crate) fn define(&mut self, alloc: Global, name: &[u8], number: u32) -> AllocResult<()>
        ensures { OnOk result (self.new ≡ with_macro self.old name.now number) }
    {
        put(&mut self.numbers, alloc, name, number)
    }

    /// What a token is once macros are replaced: a name or a keyword that is defined is a constant.
    pub(crate) fn replaced(&self, kind: TokenKind) -> TokenKind
        ensures { result ≡ replaced self.now kind }
    {
        let word = match &kind {
            TokenKind::Name(name) => name.as_slice(),
            TokenKind::Keyword(keyword) => keyword_text(*keyword),
            _ => return kind,
        };
        match self.number(word) {
            Some(number) => TokenKind::Constant(number),
            None => kind,
        }
    }
}
