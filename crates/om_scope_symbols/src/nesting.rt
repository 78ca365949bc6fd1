//! The constructs round a place, one inside of the other, and what they make of a variable that is
//! declared round them.

ghost use Rattle.std.specs.Prelude.{◌≡◌, ◌<◌, [], OnOk, reverse, suc, vec_len, vec_capacity};
ghost use Rattle.om_scope_symbols.specs.Nesting.{AreMarked, AreNested, StandsIn, copied_since, copies, entered, marks_in, marks_of, marks_without, outside_of, unlisted_since, with_parallel, without_parallel};
ghost use Rattle.om_scope_rules.specs.Sharing.{asks_for_clauses, is_parallel, is_task};

use crate::landmark::{Landmark, Marks, first_deeper, last_within, list, marks_behind, unlist};
use crate::stacks::Stacks;
use om_pragma::Sharing;
use om_scope_rules::{Region, SharingKind};
use om_seq::AllocResult;
use std::alloc::Global;
use std::marker::Model;
use std::mem;

/// A construct round a place.
#[derive(Drop)]
pub struct Construct {
    /// How many scopes stand round the one that it stands in.
    pub depth: usize,
    pub region: Region,
    /// The marks of it and of the constructs round it.
    pub marks: Marks,
}

// Whether it is `default(none)`.
fn asks_for_clauses(default: Option<Sharing>) -> bool
    ensures { result ≡ asks_for_clauses default }
{
    matches!(default, Some(Sharing::None))
}

// Whether it copies what it does not list: a `task` without `default`.
fn copies(region: &Region) -> bool
    ensures { result ≡ copies region.now }
{
    is_task(region.kind) && !region.default.is_some()
}

/// Whether it is a `parallel`.
pub fn is_parallel(kind: SharingKind) -> bool
    ensures { result ≡ is_parallel kind }
{
    matches!(kind, SharingKind::Parallel)
}

// Whether it is a `task`.
fn is_task(kind: SharingKind) -> bool
    ensures { result ≡ is_task kind }
{
    matches!(kind, SharingKind::Task)
}

// The marks in a construct, round whose inner scope so many stand.
fn marks_in(region: &Region, inside: usize, outer: Marks) -> Marks
    ensures { result ≡ marks_in region.now inside outer }
{
    Marks {
        asking: if asks_for_clauses(region.default) {
            inside
        } else {
            outer.asking
        },
        copying: if copies(region) {
            inside
        } else {
            outer.copying
        },
    }
}

// Those of constructs, the innermost of which comes last.
fn marks_of(constructs: &[Construct]) -> Marks
    requires marked { AreMarked (reverse constructs.now) }
    ensures { result ≡ marks_of (reverse constructs.now) }
{
    match constructs.split_last() {
        Some((construct, _)) => construct.marks,
        None => Marks {
            asking: 0,
            copying: 0,
        },
    }
}

// Whether a construct stands in the scope of this depth.
fn stands_in(constructs: &[Construct], depth: usize) -> bool
    ensures { StandsIn (reverse constructs.now) depth result }
{
    let Some((construct, _)) = constructs.split_last() else {
        return false;
    };
    construct.depth == depth
}

// Notes a construct of a kind, if it is a `parallel`.
fn note_parallel(parallels: &mut Vec<Landmark>, kind: SharingKind, landmark: Landmark)
    requires has_room { vec_len parallels.old < vec_capacity parallels.old }
    ensures { parallels.new.items ≡ with_parallel kind landmark parallels.old.items }
{
    if is_parallel(kind) {
        match parallels.push(landmark) {
            Ok(()) => {}
            Err(_) => unreachable!(),
        }
    }
}

// Forgets the innermost construct, which is of this kind, if it is a `parallel`.
fn forget_parallel(parallels: &mut Vec<Landmark>, kind: SharingKind)
    ensures { parallels.new.items ≡ without_parallel kind parallels.old.items }
{
    if is_parallel(kind) {
        let _innermost = parallels.pop();
    }
}

/// The constructs round a place. Contracts see them, the innermost first.
#[derive(Drop)]
pub struct Nesting {
    // The innermost comes last.
    constructs: Vec<Construct>,
    // For each name, those that list it as shared.
    listings: Stacks<Landmark>,
    // Each `parallel` of them; the innermost comes last.
    parallels: Vec<Landmark>,
}

impl Model for Nesting {
    ghost use Rattle.std.specs.Prelude.{List, reverse};
    ghost use Rattle.om_scope_symbols.specs.declared.nesting.Construct.{Construct};
    ghost use Rattle.om_scope_symbols.specs.Nesting.{AreHeld};

    ghost Value = { List Construct };

    ghost view = { λ s. reverse s.constructs.items };

    ghost invariant = { λ s. AreHeld (reverse s.constructs.items) s.listings s.parallels.items };
}

impl Nesting {
    /// None.
    pub fn new(alloc: Global) -> Nesting
        ensures { result ≡ [] }
    {
        Nesting {
            constructs: Vec::new(alloc),
            listings: Stacks::new(alloc),
            parallels: Vec::new(alloc),
        }
    }

    /// Enters a construct in the scope of this depth, with a scope in it. When out of memory, all constructs
    /// are forgotten.
    pub fn enter(
        &mut self,
        alloc: Global,
        depth: usize,
        inside: usize,
        region: Region,
    ) -> AllocResult<()>
        requires nested { AreNested self.old depth }
        requires next { inside ≡ suc depth }
        ensures entered { OnOk result (self.new ≡ entered depth region self.old) }
        ensures nested { AreNested self.new inside }
    {
        self.constructs.reserve(1)?;
        self.parallels.reserve(1)?;
        let outer = marks_of(self.constructs.as_slice());
        if let Err(error) = list(&mut self.listings, alloc, inside, outer, &region.shared) {
            // A part of its names may be listed already. Without constructs the invariant holds again.
            drop(mem::replace(&mut self.constructs, Vec::new(alloc)));
            drop(mem::replace(&mut self.listings, Stacks::new(alloc)));
            self.parallels.clear();
            return Err(error);
        }
        let marks = marks_in(&region, inside, outer);
        let landmark = Landmark {
            depth: inside,
            marks,
        };
        note_parallel(&mut self.parallels, region.kind, landmark);
        let construct = Construct {
            depth,
            region,
            marks,
        };
        let Ok(()) = self.constructs.push(construct) else {
            unreachable!()
        };
        Ok(())
    }

    /// Leaves the construct that stands in the scope of this depth, if one does.
    pub fn leave(&mut self, depth: usize)
        ensures { self.new ≡ outside_of self.old depth }
    {
        if stands_in(self.constructs.as_slice(), depth) {
            if let Some(construct) = self.constructs.pop() {
                unlist(&mut self.listings, &construct.region.shared);
                forget_parallel(&mut self.parallels, construct.region.kind);
                drop(construct);
            }
        }
    }

    // The marks of those constructs that do not list a name.
    fn marks_without(&self, name: &[u8]) -> Marks
        ensures { result ≡ marks_without self.now name.now }
    {
        let all = marks_of(self.constructs.as_slice());
        marks_behind(self.listings.innermost(name), all)
    }

    /// Whether a construct lacks a clause for a name, of those that stand in a scope of this depth or
    /// in a deeper one.
    pub fn is_unlisted_since(&self, depth: usize, name: &[u8]) -> bool
        ensures { result ≡ unlisted_since self.now depth name.now }
    {
        // For the proof alone: it knows the invariant of `self` where a field of it is borrowed.
        let _ = &self.constructs;
        depth < self.marks_without(name).asking
    }

    /// Whether a `task` of those makes a copy of a name's variable, as no `parallel` of those stands
    /// round it. So what counts are the constructs up to the outermost `parallel` of those, and what
    /// does not list the name among them. They are found by two binary searches: at most, this costs
    /// the logarithm of the number of constructs, whatever they are.
    pub fn is_copied_since(&self, depth: usize, name: &[u8]) -> bool
        ensures { result ≡ copied_since self.now depth name.now }
    {
        let marks = match first_deeper(self.parallels.as_slice(), depth) {
            Some(parallel) => {
                let listing = last_within(self.listings.items(name), parallel.depth);
                marks_behind(listing, parallel.marks)
            }
            None => self.marks_without(name),
        };
        depth < marks.copying
    }
}
