//! The numbers of objects and of values.

ghost use Rattle.std.specs.Prelude.{◌≡◌, ◌+◌, ◌<◌, ◌^◌, None, Some, IfOk};
ghost use Rattle.om_foot.specs.declared.object.Obj.{Obj};
ghost use Rattle.om_state.specs.State.{State};
ghost use Rattle.lab_explore_words.specs.Objects.{object_words};
ghost use Rattle.lab_explore_words.specs.Values.{value_words};
ghost use Rattle.lab_explore_rows.specs.Rows.{IsEntry};
ghost use Rattle.lab_explore_rows.specs.Tables.{AreTables, Extends, HaveStarts, no_tables, place_of};
ghost use Rattle.lab_explore_rows.specs.WordTables.{number_of, Keeps};

use crate::word_table::WordTable;
use lab_explore_words::laws::{distinct_objects, distinct_values};
use lab_explore_words::{push_object, push_value};
use om_foot::Obj;
use om_seq::AllocResult;
use om_state::Val;
use std::alloc::Global;
use std::marker::Model;

/// The numbers of objects that are known, and of values.
///
/// Contracts see the words of the objects and of the values, in the order of their numbers, and for each object the
/// number of what it holds at the start.
#[derive(Drop)]
pub struct Tables {
    objects: WordTable,
    starts: Vec<u32>,
    values: WordTable,
}

impl Model for Tables {
    ghost use Rattle.lab_explore_rows.specs.Tables.{TablesView, AreTables};

    ghost Value = { TablesView };

    ghost view = { λ t. record { objects = t.objects; starts = t.starts.items; values = t.values } };

    ghost invariant = { λ t. AreTables t.objects t.starts.items };
}

// The words of an object. The only error is out of memory.
fn words_of_object(alloc: Global, object: &Obj) -> AllocResult<Vec<u32>>
    ensures { IfOk result (λ words. words.items ≡ object_words object.now) }
{
    let mut words = Vec::new(alloc);
    push_object(object, &mut words)?;
    Ok(words)
}

// The words of a value. The only error is out of memory.
fn words_of_value(alloc: Global, value: &Val) -> AllocResult<Vec<u32>>
    ensures { IfOk result (λ words. words.items ≡ value_words value.now) }
{
    let mut words = Vec::new(alloc);
    push_value(value, &mut words)?;
    Ok(words)
}

// The number of a list of words, which gets one if it has none. The only error is out of memory; no number changes.
fn number_in(table: &mut WordTable, alloc: Global, words: &[u32]) -> AllocResult<u32>
    ensures number { IfOk result (λ number. number_of table.new words.now ≡ Some number) }
    ensures small { IfOk result (λ number. number + 1 < 2 ^ 32) }
    ensures keeps { Keeps table.old table.new }
{
    if let Some(number) = table.number(words) {
        return Ok(number);
    }
    let number = table.add(alloc, words)?;
    Ok(number)
}

// The number of a value, which gets one if it has none. The only error is out of memory; no number changes.
fn number_of_value(values: &mut WordTable, alloc: Global, value: &Val) -> AllocResult<u32>
    ensures number { IfOk result (λ number. number_of values.new (value_words value.now) ≡ Some number) }
    ensures small { IfOk result (λ number. number + 1 < 2 ^ 32) }
    ensures keeps { Keeps values.old values.new }
{
    let words = words_of_value(alloc, value)?;
    number_in(values, alloc, words.as_slice())
}

impl Tables {
    /// Tables in which nothing has a number. It takes no memory.
    pub fn new(alloc: Global) -> Tables
        ensures { result ≡ no_tables }
    {
        Tables {
            objects: WordTable::new(alloc),
            starts: Vec::new(alloc),
            values: WordTable::new(alloc),
        }
    }

    /// The number of an object; `None` where it is not known. The only error is out of memory.
    pub fn place(&self, alloc: Global, object: &Obj) -> AllocResult<Option<u32>>
        ensures { IfOk result (λ place. place ≡ place_of self.now object.now) }
    {
        let words = words_of_object(alloc, object)?;
        Ok(self.objects.number(words.as_slice()))
    }

    /// Gives a number to an object that is not known, and that holds this value at the start. The only error is out
    /// of memory; no number changes.
    pub fn know(&mut self, alloc: Global, object: &Obj, start: &Val) -> AllocResult<u32>
        requires { place_of self.old object.now ≡ None }
        ensures place { IfOk result (λ place. place_of self.new object.now ≡ Some place) }
        ensures extends { Extends self.old self.new }
        ensures numbered { AreTables self.old.objects self.old.starts
            → AreTables self.new.objects self.new.starts }
        ensures starts { (s : State) → s object.now ≡ start.now → HaveStarts s self.old
            → HaveStarts s self.new }
    {
        distinct_objects();
        let words = words_of_object(alloc, object)?;
        let number = number_of_value(&mut self.values, alloc, start)?;
        self.starts.reserve(1)?;
        let place = self.objects.add(alloc, words.as_slice())?;
        self.starts.push_reserved(number);
        Ok(place)
    }

    /// The entry of a value that an object of this number holds: 0 where it is what the object holds at the start,
    /// else one above the number of the value. The only error is out of memory; no number changes.
    pub fn entry(&mut self, alloc: Global, place: u32, value: &Val) -> AllocResult<u32>
        requires { (q : Obj) × (place_of self.old q ≡ Some place) }
        ensures entry { IfOk result (λ entry. (s : State) (q : Obj) → HaveStarts s self.old
            → place_of self.old q ≡ Some place → IsEntry self.new.values entry value.now (s q)) }
        ensures extends { Extends self.old self.new }
        ensures objects { self.new.objects ≡ self.old.objects }
        ensures starts { self.new.starts ≡ self.old.starts }
    {
        distinct_values();
        let number = number_of_value(&mut self.values, alloc, value)?;
        if number == self.starts[place as usize] {
            return Ok(0);
        }
        Ok(number + 1)
    }
}
