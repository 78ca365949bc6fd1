//! What the instructions of a body name by numbers.

ghost use Rattle.std.specs.Prelude.{◌≡◌, ◌≤◌, length, map, slice_get};
ghost use Rattle.om_scope_tree.specs.ResolvedView as view;
ghost use Rattle.om_lower_rules.specs.Bodies as rows;
ghost use Rattle.om_lower_rules.specs.Numbering.{function_numbers};

use crate::tables::{Numbers, Tables};
use crate::variables::Variables;
use om_code::instruction::Place;
use om_scope_tree::{LocalVariable, Resolved, ResolvedFunction, Variable};
use om_seq::Seq;

/// What the instructions of a body name by numbers: its slots, and the tables of its program.
///
/// A body has at most 256 slots, and the numbers of all tables are of 32 bits.
#[derive(Drop)]
pub struct BodyTables<'a> {
    pub functions: &'a [ResolvedFunction],
    /// The tables of the program.
    pub program: &'a Tables,
    /// The variables of the first bodies of the program by their numbers, those of its function among them.
    pub known: &'a [Variables],
    pub variables: &'a Variables,
    /// Whether the body stands in `main`.
    pub is_main: bool,
    ghost few: { length variables.now ≤ 256 },
    ghost numbered: { program.now.bodies.items ≡ function_numbers rows.first_numbers (map view.function functions.now) },
    ghost behind: { program.now.behind.bodies ≡ (rows.behind_functions rows.first_numbers (map view.function functions.now)).bodies },
}

impl<'a> BodyTables<'a> {
    ghost use Rattle.std.specs.Prelude.{◌≡◌, ◌≤◌, ◌<◌, Some, length, slice_get};
    ghost use Rattle.std.specs.Str.{bytes_eq};
    ghost use Rattle.om_lower_rules.specs.Bodies as rows;
    ghost use Rattle.om_lower_rules.specs.Mentions.{lock_name};
    ghost use Rattle.om_lower_rules.specs.Slots.{place_of, slot_of};
    ghost use Rattle.om_lower_rules.specs.Tables.{number_in};
    ghost use Rattle.om_lower_rules.specs.BodyTables.{AreOfBody, numbered_by};
    ghost use Rattle.om_lower_rules.specs.Numbering.{numbers_of};
    ghost use Rattle.om_lower_rules.specs.ProgramTables.{IsTablesOf, known_in, known_of};

    /// Those of a body of `main`, or of another function, with at most 256 variables.
    pub fn new(
        resolved: &'a Resolved,
        tables: &'a Tables,
        known: &'a [Variables],
        variables: &'a Variables,
        is_main: bool,
    ) -> BodyTables<'a>
        requires few { length variables.now ≤ 256 }
        requires tables { IsTablesOf (view.resolved resolved.now) tables.now }
        ensures names { AreOfBody result resolved.now variables.now is_main }
        ensures known { known_in result ≡ known_of tables.now known.now }
    {
        BodyTables {
            functions: resolved.functions.as_slice(),
            program: tables,
            known,
            variables,
            is_main,
        }
    }

    /// A variable, as instructions name it.
    pub fn place(&self, variable: Variable) -> Place
        ensures { result ≡ place_of (numbered_by self.now).slots variable }
    {
        match variable {
            Variable::Global(number) => Place::Global(number),
            Variable::Local(at) => Place::Slot(self.slot_of(at)),
        }
    }

    /// The slot of a declared variable or a copy.
    pub fn slot(&self, variable: &LocalVariable) -> u32
        ensures { result ≡ slot_of (numbered_by self.now).slots variable.now.at }
    {
        self.slot_of(variable.at)
    }

    /// The slot of the variable that is declared, or copied, at this byte; of one that is not there,
    /// the number behind all slots.
    pub fn slot_of(&self, variable: u32) -> u32
        ensures { result ≡ slot_of (numbered_by self.now).slots variable }
    {
        self.variables.slot_of(variable) as u32
    }

    /// The number of a format; of one that is not there, the number behind all of them.
    pub fn format_number(&self, format: &[u8]) -> u32
        ensures { result ≡ number_in (bytes_eq format.now) (numbered_by self.now).formats }
    {
        self.program.formats.number_of(format)
    }

    /// The number of the lock of a critical region; the unnamed one has no bytes.
    pub fn lock_number(&self, name: &Option<Seq<u8>>) -> u32
        ensures { result ≡ number_in (bytes_eq (lock_name name.now)) (numbered_by self.now).locks }
    {
        match name {
            None => self.program.locks.number_of(&[]),
            Some(name) => self.program.locks.number_of(name.as_slice()),
        }
    }

    /// The number of the body of a function; behind all functions, the number behind all bodies.
    pub fn called_body(&self, function: usize) -> u32
        ensures { result ≡ rows.called_body (numbered_by self.now).functions function }
    {
        let number = number_at(self.program.bodies.as_slice(), function);
        number.unwrap_or(self.program.behind.bodies)
    }

    /// The numbers behind the region whose body gets this number.
    pub fn behind_region(&self, body: u32) -> Numbers
        requires { body < length (known_in self.now).ends }
        ensures { slice_get (known_in self.now).ends body ≡ Some (numbers_of result) }
    {
        self.program.ends[body as usize]
    }

    /// The variables of the region whose body gets this number.
    pub fn region_variables(&self, body: u32) -> &'a Variables
        requires { body < length (known_in self.now).slots }
        ensures { slice_get (known_in self.now).slots body ≡ Some result.now }
    {
        &self.known[body as usize]
    }

    /// Whether the body stands in `main`.
    pub fn is_main(&self) -> bool
        ensures { result ≡ (numbered_by self.now).is_main }
    {
        self.is_main
    }
}

// The number at an index, if there is one.
fn number_at(numbers: &[u32], index: usize) -> Option<u32>
    ensures { result ≡ slice_get numbers.now index }
{
    numbers.get(index).copied()
}
