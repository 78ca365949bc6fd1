//! Names of tasks as replies and journals keep them: a name takes 520 bytes, and most have four numbers at most.

ghost use Rattle.std.specs.Prelude.{◌≡◌, ◌≤◌, length, IfOk};
ghost use Rattle.om_book_journal.specs.Names.{name_in};

use crate::same::Same;
use om_foot::Name;
use om_seq::{AllocResult, Seq};
use std::alloc::Global;
use std::marker::Model;
use std::mem::size_of;

// The numbers of a name. Up to four of them lie in place, and more lie apart.
#[derive(Drop)]
enum NameForms {
    One(u64),
    Two(u64, u64),
    Three(u64, u64, u64),
    Four(u64, u64, u64, u64),
    Other(Box<Name>),
}

/// The name of a task, as a reply keeps it.
///
/// Contracts see the name alone.
#[derive(Drop)]
pub struct KeptName {
    forms: NameForms,
}

// A reply has one for each task that is ready.
const _: () = prove!(size_of::<KeptName>() <= 40);

impl Model for KeptName {
    ghost use Rattle.std.specs.Prelude.{ℕ, List};
    ghost use Rattle.om_book_journal.specs.Names.{name_in};

    ghost Value = { List ℕ };

    ghost view = { λ k. name_in k.forms };
}

// The forms of a name, to be kept. Its only error is out of memory, at a name of more than four numbers.
fn forms_of(alloc: Global, name: &Name) -> AllocResult<NameForms>
    ensures { IfOk result (λ forms. name_in forms ≡ name.now) }
{
    match name.as_slice() {
        [first] => Ok(NameForms::One(*first)),
        [first, second] => Ok(NameForms::Two(*first, *second)),
        [first, second, third] => Ok(NameForms::Three(*first, *second, *third)),
        [first, second, third, fourth] => { Ok(NameForms::Four(*first, *second, *third, *fourth)) }
        _ => Ok(NameForms::Other(Box::new(alloc, *name)?)),
    }
}

// The name of so few numbers that there is one.
fn name_of(numbers: &[u64]) -> Name
    requires { length numbers.now ≤ 4 }
    ensures { result ≡ numbers.now }
{
    match Name::of(numbers) {
        Some(name) => name,
        None => unreachable!(),
    }
}

impl KeptName {
    /// A name, to be kept. Its only error is out of memory.
    pub fn of(alloc: Global, name: &Name) -> AllocResult<KeptName>
        ensures { IfOk result (λ kept. kept ≡ name.now) }
    {
        Ok(KeptName {
            forms: forms_of(alloc, name)?,
        })
    }

    /// The name.
    pub fn get(&self) -> Name
        ensures { result ≡ self.now }
    {
        match &self.forms {
            NameForms::One(first) => name_of(&[*first]),
            NameForms::Two(first, second) => name_of(&[*first, *second]),
            NameForms::Three(first, second, third) => name_of(&[*first, *second, *third]),
            NameForms::Four(first, second, third, fourth) => {
                name_of(&[*first, *second, *third, *fourth])
            }
            NameForms::Other(name) => **name,
        }
    }
}

impl Same for KeptName {
    fn is_same(&self, other: &KeptName) -> bool {
        self.get().is_same(&other.get())
    }
}

/// Names, to be kept in their order. Its only error is out of memory.
pub(crate) fn kept_names(alloc: Global, names: &[Name]) -> AllocResult<Seq<KeptName>>
    ensures { IfOk result (λ kept. kept ≡ names.now) }
{
    let mut kept = Vec::with_capacity(alloc, names.len())?;
    for name in names {
        kept.push(KeptName::of(alloc, name)?)?;
    }
    Ok(Seq::of(kept))
}
