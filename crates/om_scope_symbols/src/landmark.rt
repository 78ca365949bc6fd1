//! Constructs round a place that are found by how deep they stand, with what stands up to each. A slice of
//! them has the outermost first. Which of them list a name as shared, and which of the others ask for a
//! clause for it, or copy it: however many there are, the innermost is found at once.

ghost use Rattle.std.specs.Prelude.{◌≡◌, ◌≤◌, length, OnOk};
ghost use Rattle.om_scope_symbols.specs.Landmarks.{Descend, IsCountWithin, deeper, first_deeper, last_within};
ghost use Rattle.om_scope_symbols.specs.Landmarks.{marks_behind};
ghost use Rattle.om_scope_symbols.specs.Nesting.{AddsListings, ChangedFor};
ghost use Rattle.om_scope_symbols.specs.Stacks.{without_innermost};

use crate::stacks::Stacks;
use om_scope_rules::Names;
use om_seq::AllocResult;
use std::alloc::Global;

/// For each of two kinds of constructs, the depth of the innermost one: how many scopes stand round the
/// scope in it. 0 where there is none.
#[derive(Clone, Copy)]
pub struct Marks {
    /// It asks for clauses: `default(none)`.
    pub asking: usize,
    /// It copies what it does not list: a `task` without `default`.
    pub copying: usize,
}

/// A construct round a place.
#[derive(Clone, Copy)]
pub struct Landmark {
    /// How many scopes stand round the one in it.
    pub depth: usize,
    /// What stands up to it. It and those round it count; where it is kept for a name that it lists as
    /// shared, those of them that do not list the name.
    pub marks: Marks,
}

// How many do not stand deeper; they come first. This is a binary search.
fn count_within(landmarks: &[Landmark], depth: usize) -> usize
    requires descend { Descend landmarks.now }
    ensures bound { result ≤ length landmarks.now }
    ensures place { IsCountWithin landmarks.now depth result }
{
    landmarks.partition_point(|landmark| landmark.depth <= depth)
}

/// The outermost that stands deeper: round the scope in it stand more scopes than this.
pub fn first_deeper(landmarks: &[Landmark], depth: usize) -> Option<Landmark>
    requires descend { Descend landmarks.now }
    ensures { result ≡ first_deeper landmarks.now depth }
{
    landmarks.get(count_within(landmarks, depth)).copied()
}

/// The innermost that does not.
pub fn last_within(landmarks: &[Landmark], depth: usize) -> Option<Landmark>
    requires descend { Descend landmarks.now }
    ensures { result ≡ last_within landmarks.now depth }
{
    let last = count_within(landmarks, depth).checked_sub(1)?;
    landmarks.get(last).copied()
}

// The innermost construct of all, if it stands in the one that lists a name, or else that from round
// it.
fn deeper(listed: usize, any: usize, outer: usize) -> usize
    ensures { result ≡ deeper listed any outer }
{
    if listed < any { any } else { outer }
}

/// What stands round a place of constructs that do not list a name: by the innermost that does, and
/// by all.
pub fn marks_behind(listing: Option<Landmark>, all: Marks) -> Marks
    ensures { result ≡ marks_behind listing all }
{
    match listing {
        None => all,
        Some(listing) => Marks {
            asking: deeper(listing.depth, all.asking, listing.marks.asking),
            copying: deeper(listing.depth, all.copying, listing.marks.copying),
        },
    }
}

/// Notes the names that a construct lists. So many scopes stand round the one in it, and these
/// constructs round itself.
pub fn list(
    listings: &mut Stacks<Landmark>,
    alloc: Global,
    inside: usize,
    all: Marks,
    names: &Names,
) -> AllocResult<()>
    ensures { OnOk result (AddsListings inside all listings.old listings.new names.now) }
{
    for name in names.as_slice() {
        let text = name.as_slice();
        let marks = marks_behind(listings.innermost(text), all);
        listings.note(
            alloc,
            text,
            Landmark {
                depth: inside,
                marks,
            },
        )?;
    }
    Ok(())
}

/// Forgets the names that the innermost construct lists.
pub fn unlist(listings: &mut Stacks<Landmark>, names: &Names)
    ensures { ChangedFor without_innermost listings.old listings.new names.now }
{
    for name in names.as_slice() {
        listings.forget(name.as_slice());
    }
}
