//! What rows are made of: edits, names and updates that many of them have, and whether a count of
//! unfinished tasks is 0.

ghost use Rattle.std.specs.Prelude.{◌∷◌, [], None, ◌≡◌, false};
ghost use Rattle.om_state.specs.Values.{count_in};
ghost use Rattle.om_memory.specs.Memories.{state_of, is_trailed};
ghost use Rattle.om_team_serial.specs.Objects.{events, event};
ghost use Rattle.om_team_serial.specs.Answers.{Gives};
ghost use Rattle.om_team_serial.specs.Rows.{is_zero};

use crate::names::{name_events, name_one};
use crate::updates::put_event;
use crate::{Answer, Row};
use om_events::Record;
use om_foot::{Mode, Names, Obj};
use om_memory::Memory;
use om_seq::{AllocResult, Seq};
use om_state::{Edit, Puts, Update};
use std::alloc::Global;

/// The worker that takes a step, from 0, and the place in its body at which it goes on.
#[derive(Clone, Copy)]
pub struct At {
    pub worker: u8,
    pub to: u32,
}

/// The edits that go to a place, and do nothing else.
pub fn go_on(alloc: Global, to: u32) -> AllocResult<Seq<Edit>>
    ensures { Gives result (Edit.Go to 0 None ∷ []) }
{
    let go = Edit::Go {
        to,
        takes: 0,
        pushed: None,
    };
    Seq::one(alloc, go)
}

/// The edits that go to a place with so many operands taken, and then make one more.
pub fn go_and(alloc: Global, to: u32, takes: u32, then: Edit) -> AllocResult<Seq<Edit>>
    ensures { Gives result (Edit.Go to takes None ∷ then ∷ []) }
{
    let pushed = None;
    let mut edits = Seq::one(alloc, then)?;
    edits.push_front(Edit::Go { to, takes, pushed })?;
    Ok(edits)
}

/// The edits that go to a place with so many operands taken, and then make two more.
pub fn go_and_then(
    alloc: Global,
    to: u32,
    takes: u32,
    then: Edit,
    last: Edit,
) -> AllocResult<Seq<Edit>>
    ensures { Gives result (Edit.Go to takes None ∷ then ∷ last ∷ []) }
{
    let mut edits = go_and(alloc, to, takes, then)?;
    edits.push(last)?;
    Ok(edits)
}

/// An update alone.
pub fn one_put(alloc: Global, update: Update) -> AllocResult<Puts>
    ensures { Gives result (update ∷ []) }
{
    Ok(Puts::of(alloc, Seq::one(alloc, update)?))
}

/// An object, and behind it the event records of a worker, as what is written.
pub fn name_with_events(alloc: Global, object: &Obj, mode: Mode, worker: u8) -> AllocResult<Names>
    ensures { Gives result (record { object = object.now; mode = mode } ∷ events worker ∷ []) }
{
    let mut names = name_one(alloc, object, mode)?;
    name_events(&mut names, worker)?;
    Ok(names)
}

/// The event records of a worker alone, as what is written.
pub fn own_events(alloc: Global, worker: u8) -> AllocResult<Names>
    ensures { Gives result (events worker ∷ []) }
{
    name_one(alloc, &Obj::Events(worker), Mode::Write)
}

/// An update, and behind it that an event record is appended.
pub fn update_with_event(alloc: Global, update: Update, entry: Record) -> AllocResult<Puts>
    ensures { Gives result (update ∷ event entry ∷ []) }
{
    let mut updates = one_put(alloc, update)?;
    put_event(alloc, &mut updates, entry)?;
    Ok(updates)
}

// That an event record is appended, alone.
fn one_event(alloc: Global, entry: Record) -> AllocResult<Puts>
    ensures { Gives result (event entry ∷ []) }
{
    let mut updates = Puts::new(alloc);
    put_event(alloc, &mut updates, entry)?;
    Ok(updates)
}

/// The answer that names a worker's event records alone, and appends one.
pub fn recorded(alloc: Global, worker: u8, edits: Seq<Edit>, entry: Record) -> AllocResult<Answer>
    ensures { Gives result (record {
      names = events worker ∷ [];
      row = Row.Goes edits (event entry ∷ []);
    }) }
{
    let updates = one_event(alloc, entry)?;
    let names = own_events(alloc, worker)?;
    let row = Row::Goes { edits, updates };
    Ok(Answer { names, row })
}

// The count that an object holds, or 0.
fn count_at(alloc: Global, store: &Memory, object: &Obj) -> i128
    requires { is_trailed object.now ≡ false }
    ensures { result ≡ count_in (state_of store.now object.now) }
{
    store.count(alloc, object).unwrap_or(0)
}

/// Whether the count that an object that is no control holds is 0; one that holds no count has 0.
pub fn is_zero(alloc: Global, store: &Memory, object: &Obj) -> bool
    requires { is_trailed object.now ≡ false }
    ensures { result ≡ is_zero (count_in (state_of store.now object.now)) }
{
    count_at(alloc, store, object) == 0
}
