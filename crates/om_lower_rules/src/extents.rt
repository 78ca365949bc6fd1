//! How many cells the declared variables of a function have.

ghost use Rattle.std.specs.Prelude.{◌≡◌, [], OnOk};
ghost use Rattle.om_lower_rules.specs.Slots.{cells_in};
ghost use Rattle.om_lower_rules.specs.Extents.{with_declaration};

use om_seq::AllocResult;
use std::alloc::Global;
use std::collections::BTreeMap;
use std::marker::Model;

/// The declared variables of a function, each once, with how many cells it has. Contracts see them
/// in the order of the text.
#[derive(Drop)]
pub struct Extents {
    // Each variable with its cells.
    declared: Vec<(u32, u32)>,
    cells: BTreeMap<u32, u32>,
}

impl Model for Extents {
    ghost use Rattle.std.specs.Prelude.{List};
    ghost use Rattle.om_lower_rules.specs.Slots.{Extent};
    ghost use Rattle.om_lower_rules.specs.Extents.{extents_in};
    ghost use Rattle.om_lower_rules.specs.Indexes.{AreAlike};

    ghost Value = { List Extent };

    ghost view = { λ s. extents_in s.declared.items };

    ghost invariant = { λ s. AreAlike s.declared.items s.cells.entries };
}

impl Extents {
    /// None.
    pub fn new(alloc: Global) -> Extents
        ensures { result ≡ [] }
    {
        Extents {
            declared: Vec::new(alloc),
            cells: BTreeMap::new(alloc),
        }
    }

    /// How many cells a variable has: 1 unless it is declared with more.
    pub fn cells(&self, variable: u32) -> u32
        ensures { result ≡ cells_in self.now variable }
    {
        self.cells.get(&variable).copied().unwrap_or(1)
    }

    /// Notes a declared variable.
    pub fn note(&mut self, variable: u32, cells: u32) -> AllocResult<()>
        ensures { OnOk result (self.new ≡ with_declaration self.old variable cells) }
    {
        if self.cells.contains_key(&variable) {
            return Ok(());
        }
        self.declared.reserve(1)?;
        self.cells.insert(variable, cells)?;
        self.declared.push_reserved((variable, cells));
        Ok(())
    }
}
