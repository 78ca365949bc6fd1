//! The places of the objects of each name.

ghost use Rattle.std.specs.Prelude.{◌≡◌, ◌<◌, ℕ, Bool, List, [], Option, None, Some, true, false, not, cond, is_some, IfOk, IfSome, OnOk, OnErr};
ghost use Rattle.std.specs.BTreeMap.{is_at};
ghost use Rattle.std.specs.Cmp.Lexicographic.{slice_cmp};
ghost use Rattle.std.specs.Option.{option_copied};
ghost use Rattle.std.specs.Ordering.{nat_cmp};
ghost use Rattle.om_foot.specs.contracts.part.PartOrd.TheImpl.{cmp-value};
ghost use Rattle.om_foot.specs.declared.part.Part.TheVariants as parts;
ghost use Rattle.om_foot.specs.Parts.{part_of};
ghost use Rattle.om_cells.specs.Named.{Named, places_of, value_of, PutsOf, StaysOf};
ghost use Rattle.om_state.specs.Ready.{is_ready, is_from, is_the, AreAll, IsNext};
ghost use Rattle.om_cells.specs.ReadyEntries.{is_ready_in, name_if_ready};
ghost use Rattle.om_state.specs.Values.{task_in};

use crate::places::{Place, Places};
use om_foot::part::Part;
use om_foot::{Access, Name, SharedAccess, SlotName};
use om_seq::AllocResult;
use om_state::{Task, Val};
use std::alloc::Global;
use std::cmp::Ordering;
use std::collections::BTreeMap;
use std::marker::Model;
use std::ops::Bound;

/// The places of the objects of each name that is known.
///
/// Contracts see the names with their places, and the value that is kept at a part of a name as
/// `value_of`.
#[derive(Drop)]
pub struct Named {
    places: BTreeMap<Name, Places>,
    // The least name whose task is ready. So a search for it does not pass the tasks that are done.
    first: Option<Name>,
}

impl Model for Named {
    ghost use Rattle.std.specs.Prelude.{None};
    ghost use Rattle.om_cells.specs.Named.{Named};
    ghost use Rattle.om_state.specs.Ready.{IsNext};
    ghost use Rattle.om_cells.specs.ReadyEntries.{is_ready_in};

    ghost Value = { Named };

    ghost view = { λ n. n.places.entries };

    ghost invariant = { λ n. IsNext (is_ready_in n.places.entries) None n.first };
}

impl Named {
    /// No names. It takes no memory.
    pub fn new(alloc: Global) -> Named
        ensures { result ≡ [] }
    {
        Named {
            places: BTreeMap::new(alloc),
            first: None,
        }
    }

    /// The places of a name, if it is known.
    pub fn get(&self, name: &Name) -> Option<&Places>
        ensures { option_copied result ≡ places_of self.now name.now }
    {
        self.places.get(name)
    }

    /// The names of all tasks that are ready to be begun, ascending. Its only error is out of
    /// memory.
    pub fn ready(&self, alloc: Global) -> AllocResult<Vec<Name>>
        ensures { IfOk result (λ v. AreAll (is_ready_in self.now) v.items) }
    {
        ready_names(alloc, &self.places)
    }

    /// The least name behind another one, or of all, whose task is ready to be begun.
    pub fn next_ready(&self, after: Option<&Name>) -> Option<Name>
        ensures { IsNext (is_ready_in self.now) (option_copied after.entry) result }
    {
        match after {
            None => self.first,
            Some(after) => ready_behind(&self.places, after),
        }
    }

    /// Keeps a place at a part of a name, which is known from then on. When out of memory, what is
    /// kept stays.
    pub fn enter(&mut self, alloc: Global, name: &Name, part: Part, place: Place) -> AllocResult<()>
        ensures entered { OnOk result (PutsOf name.now part (Some place) self.old self.new) }
        ensures unchanged_on_error { OnErr result (StaysOf self.old self.new) }
    {
        know(alloc, &mut self.places, name)?;
        enter_known(&mut self.places, name, part, place)?;
        note(&self.places, &mut self.first, name, &part);
        Ok(())
    }

    /// Puts a value at a part of a name, where one is kept, and answers the one before. It takes no
    /// memory.
    pub fn put(&mut self, name: &Name, part: &Part, value: Val) -> Val
        requires { is_some (value_of self.old name.now part.now) ≡ true }
        ensures before { Some result ≡ value_of self.old name.now part.now }
        ensures after { PutsOf name.now part.now (Some value) self.old self.new }
    {
        let before = put(&mut self.places, name, part, value);
        note(&self.places, &mut self.first, name, part);
        before
    }

    /// An access, shared with the place at its object's part of a name; `None` where none is kept there. Its
    /// only error is out of memory. What is kept stays.
    pub fn share(
        &mut self,
        alloc: Global,
        name: &Name,
        access: &Access,
    ) -> AllocResult<Option<SharedAccess>>
        ensures shared { IfOk result (λ found. IfSome found (λ shared. shared ≡ access.now)) }
        ensures found { IfOk result (λ found. is_some found
            ≡ is_some (value_of self.old name.now (part_of access.now.object))) }
        ensures stays { StaysOf self.old self.new }
    {
        share(alloc, &mut self.places, name, access)
    }

    /// Keeps nothing at a part of a name. It takes no memory.
    pub fn remove(&mut self, name: &Name, part: &Part)
        ensures { PutsOf name.now part.now None self.old self.new }
    {
        remove(&mut self.places, name, part);
        note(&self.places, &mut self.first, name, part);
    }

    /// Whether none of the first cells of a slot is kept.
    pub fn holds_none(&self, slot: &SlotName, count: u32) -> bool
        ensures { result ≡ true → (i : ℕ) → i < count
            → value_of self.now slot.now.task (parts.Cell slot.now.frame slot.now.slot i) ≡ None }
    {
        match self.places.get(&slot.task) {
            Some(places) => places.holds_none(slot, count),
            None => true,
        }
    }
}

// Makes a name known. What is kept stays, also when out of memory.
fn know(alloc: Global, places: &mut BTreeMap<Name, Places>, name: &Name) -> AllocResult<()>
    ensures same { StaysOf places.old.entries places.new.entries }
    ensures known { OnOk result (is_some (places_of places.new.entries name.now) ≡ true) }
{
    if places.contains_key(name) {
        return Ok(());
    }
    drop(places.insert(*name, Places::new(alloc))?);
    Ok(())
}

// Keeps a place at a part of a name that is known. When out of memory, what is kept stays.
fn enter_known(
    places: &mut BTreeMap<Name, Places>,
    name: &Name,
    part: Part,
    place: Place,
) -> AllocResult<()>
    requires { is_some (places_of places.old.entries name.now) ≡ true }
    ensures entered { OnOk result
        (PutsOf name.now part (Some place) places.old.entries places.new.entries) }
    ensures unchanged_on_error { OnErr result (StaysOf places.old.entries places.new.entries) }
{
    match places.get_mut(name) {
        Some(places) => places.enter(part, place),
        None => unreachable!(),
    }
}

// Puts a value at a part of a name, where one is kept, and answers the one before.
fn put(places: &mut BTreeMap<Name, Places>, name: &Name, part: &Part, value: Val) -> Val
    requires { is_some (value_of places.old.entries name.now part.now) ≡ true }
    ensures before { Some result ≡ value_of places.old.entries name.now part.now }
    ensures after { PutsOf name.now part.now (Some value) places.old.entries places.new.entries }
{
    match places.get_mut(name) {
        Some(places) => places.put(part, value),
        None => unreachable!(),
    }
}

// An access, shared with the place at its object's part of a name; `None` where none is kept there. What
// is kept stays.
fn share(
    alloc: Global,
    places: &mut BTreeMap<Name, Places>,
    name: &Name,
    access: &Access,
) -> AllocResult<Option<SharedAccess>>
    ensures shared { IfOk result (λ found. IfSome found (λ shared. shared ≡ access.now)) }
    ensures found { IfOk result (λ found. is_some found
        ≡ is_some (value_of places.old.entries name.now (part_of access.now.object))) }
    ensures stays { StaysOf places.old.entries places.new.entries }
{
    match places.get_mut(name) {
        Some(places) => places.share(alloc, access),
        None => Ok(None),
    }
}

// Keeps nothing at a part of a name.
fn remove(places: &mut BTreeMap<Name, Places>, name: &Name, part: &Part)
    ensures { PutsOf name.now part.now None places.old.entries places.new.entries }
{
    match places.get_mut(name) {
        Some(places) => places.remove(part),
        None => {}
    }
}

// Makes the least name whose task is ready what it is now, after a part of a name got another value.
fn note(places: &BTreeMap<Name, Places>, first: &mut Option<Name>, name: &Name, part: &Part)
    ensures { (old : Named) (v : Option Val)
        → PutsOf name.now part.now v old places.now.entries
        → IsNext (is_ready_in old) None first.old
        → IsNext (is_ready_in places.now.entries) None first.new }
{
    if is_task(part) {
        note_task(places, first, name);
    }
}

// Whether a part is the task of its name.
fn is_task(part: &Part) -> bool
    ensures { result ≡ is_at (cmp-value.it part.now) parts.Task }
{
    part.cmp(&Part::Task) == Ordering::Equal
}

// The same, after the task of a name got another value: no other name's task did.
fn note_task(places: &BTreeMap<Name, Places>, first: &mut Option<Name>, name: &Name)
    ensures { (is : List ℕ → Bool)
        → ((m : List ℕ) → is_at (slice_cmp nat_cmp name.now) m ≡ false
        → is_ready_in places.now.entries m ≡ is m)
        → IsNext is None first.old → IsNext (is_ready_in places.now.entries) None first.new }
{
    if is_ready(places, name) {
        if is_before(name, first) {
            *first = Some(*name);
        }
    } else if is_the(name, first) {
        *first = ready_behind(places, name);
    }
}

// Whether the task of a name is ready to be begun.
fn is_ready(places: &BTreeMap<Name, Places>, name: &Name) -> bool
    ensures { result ≡ is_ready_in places.now.entries name.now }
{
    let Some(places) = places.get(name) else {
        return false;
    };
    ready_name(name, places).is_some()
}

// Whether a name is before another one; it is so before none.
fn is_before(name: &Name, other: &Option<Name>) -> bool
    ensures { result ≡ not (is_from other.now name.now) }
{
    match other {
        Some(other) => other.cmp(name) == Ordering::Greater,
        None => true,
    }
}

// Whether a name is another one; it isn't none.
fn is_the(name: &Name, other: &Option<Name>) -> bool
    ensures { result ≡ is_the name.now other.now }
{
    let Some(other) = other else {
        return false;
    };
    name.cmp(other) == Ordering::Equal
}

// The names of all tasks that are ready to be begun, ascending.
fn ready_names(alloc: Global, places: &BTreeMap<Name, Places>) -> AllocResult<Vec<Name>>
    ensures { IfOk result (λ v. AreAll (is_ready_in places.now.entries) v.items) }
{
    let mut names = Vec::new(alloc);
    for (name, places) in places.iter() {
        if let Some(name) = ready_name(name, places) {
            names.push(name)?;
        }
    }
    Ok(names)
}

// The least name behind another one whose task is ready to be begun.
fn ready_behind(places: &BTreeMap<Name, Places>, after: &Name) -> Option<Name>
    ensures { IsNext (is_ready_in places.now.entries) (Some after.now) result }
{
    for (name, places) in places.range((Bound::Excluded(after), Bound::Unbounded)) {
        if let Some(name) = ready_name(name, places) {
            return Some(name);
        }
    }
    None
}

// The name, if its task is ready to be begun.
fn ready_name(name: &Name, places: &Places) -> Option<Name>
    ensures { result ≡ name_if_ready name.now places.now }
{
    ready_at(name, places.get(&Part::Task)?)
}

// The name, if the task at its place is ready to be begun.
fn ready_at(name: &Name, place: &Place) -> Option<Name>
    ensures { result ≡ cond (is_ready (task_in place.now)) (Some name.now) None }
{
    let Task::Ready(_) = place.value().task()? else {
        return None;
    };
    Some(*name)
}
