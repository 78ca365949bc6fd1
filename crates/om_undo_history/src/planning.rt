//! A step that is about to be made: its objects are kept, and its updates go along with them.

ghost use Rattle.std.specs.Prelude.{◌≡◌, true, [], OnOk, IfOk};
ghost use Rattle.om_foot.specs.declared.object.Obj.{Obj};
ghost use Rattle.om_foot.specs.declared.object.Obj.TheVariants as obj;
ghost use Rattle.om_memory.specs.Memories.{state_of, is_kept, pasts_of};
ghost use Rattle.om_undo_touches.specs.Accesses.{accesses_of};
ghost use Rattle.om_undo_history.specs.Backs.{own_first, puts_in, wanted, are_along, CanGoAlong};
ghost use Rattle.om_undo_history.specs.Records.{Keeps};

use crate::kept::{BackParts, Backs};
use crate::updates::{keep_cells, keep_each};
use om_foot::{Access, Cells, Names};
use om_memory::Memory;
use om_seq::{AllocResult, Seq};
use om_state::{Footprint, PutParts, Puts, Run, Update};
use om_undo_touches::Accesses;
use std::alloc::Global;

/// A step that is about to be made.
#[derive(Drop)]
pub(crate) struct Making {
    /// Its accesses, shared.
    pub footprint: Accesses,
    /// The updates behind the first access, but those of cells that are named at once.
    pub back: Backs,
    /// What is put at those cells.
    pub runs: Seq<Run>,
}

// Each update by itself. Its only error is out of memory.
fn rejoined(alloc: Global, parts: PutParts) -> AllocResult<Vec<Update>>
    ensures { IfOk result (λ all. all.items ≡ puts_in parts) }
{
    let PutParts { first, runs, last } = parts;
    let mut puts = Puts::of(alloc, Seq::of(first));
    for run in runs.as_slice() {
        puts.push_run(*run)?;
    }
    let mut all = Seq::of(puts.into_vec()?);
    all.append(Seq::of(last))?;
    Ok(all.into_vec())
}

// Whether each run has a put for each cell of a slot.
fn are_along(all: &[Cells], runs: &[Run]) -> bool
    ensures { result ≡ are_along all.now runs.now }
{
    let Some((cells, others)) = all.split_first() else {
        return runs.is_empty();
    };
    let Some((run, behind)) = runs.split_first() else {
        return false;
    };
    cells.count == run.count && are_along(others, behind)
}

// The accesses of these objects behind the write of a worker's control. Each is kept. Where there is none, or
// one, they take no memory of their own. No value changes, also when out of memory.
fn singles(
    store: &mut Memory,
    alloc: Global,
    worker: u8,
    others: &[Access],
) -> AllocResult<Accesses>
    ensures footprint { IfOk result (λ f. accesses_of f ≡ own_first worker others.now) }
    ensures single { IfOk result (λ f. (f.cells ≡ []) × (f.last ≡ [])) }
    ensures same { state_of store.new ≡ state_of store.old }
    ensures same_pasts { pasts_of store.new ≡ pasts_of store.old }
    ensures kept { OnOk result (Keeps store.new others.now) }
    ensures others_kept { (q : Obj) → is_kept store.old q ≡ true → is_kept store.new q ≡ true }
{
    let Some((access, further)) = others.split_first() else {
        return Ok(Accesses::control_alone(worker));
    };
    if further.is_empty() {
        let shared = store.keep(alloc, access)?;
        return Ok(Accesses::one(worker, shared));
    }
    let mut shared = Vec::with_capacity(alloc, others.len())?;
    keep_each(store, alloc, &mut shared, others)?;
    Accesses::of_parts(alloc, worker, shared, Seq::new(alloc), Vec::new(alloc))
}

// A step of single updates, whose worker's control is kept. No value changes, also when out of memory.
fn plain(
    store: &mut Memory,
    alloc: Global,
    worker: u8,
    others: &[Access],
    updates: Vec<Update>,
) -> AllocResult<Making>
    requires { is_kept store.old (obj.Control worker) ≡ true }
    ensures footprint { IfOk result (λ m. accesses_of m.footprint ≡ own_first worker others.now) }
    ensures updates { IfOk result (λ m. wanted m.back m.runs ≡ updates.items) }
    ensures along { IfOk result (λ m. CanGoAlong m.footprint m.back m.runs) }
    ensures same { state_of store.new ≡ state_of store.old }
    ensures same_pasts { pasts_of store.new ≡ pasts_of store.old }
    ensures kept { OnOk result (Keeps store.new (own_first worker others.now)) }
    ensures others_kept { (q : Obj) → is_kept store.old q ≡ true → is_kept store.new q ≡ true }
{
    match singles(store, alloc, worker, others) {
        Ok(footprint) => Ok(Making {
            footprint,
            back: Backs::Plain(updates),
            runs: Seq::new(alloc),
        }),
        Err(error) => {
            drop(updates);
            Err(error)
        }
    }
}

// A step that names cells at once, where each run has a put for each of them, and else one of single
// updates; its worker's control is kept. No value changes, also when out of memory. Few steps name cells at
// once.
#[cold]
#[inline(never)]
fn in_parts(
    store: &mut Memory,
    alloc: Global,
    worker: u8,
    names: &Names,
    puts: PutParts,
) -> AllocResult<Making>
    requires { is_kept store.old (obj.Control worker) ≡ true }
    ensures footprint { IfOk result (λ m. accesses_of m.footprint ≡ own_first worker names.now) }
    ensures updates { IfOk result (λ m. wanted m.back m.runs ≡ puts_in puts) }
    ensures along { IfOk result (λ m. CanGoAlong m.footprint m.back m.runs) }
    ensures same { state_of store.new ≡ state_of store.old }
    ensures same_pasts { pasts_of store.new ≡ pasts_of store.old }
    ensures kept { OnOk result (Keeps store.new (own_first worker names.now)) }
    ensures others_kept { (q : Obj) → is_kept store.old q ≡ true → is_kept store.new q ≡ true }
{
    let (first, cells, last) = names.parts();
    if first.len() != puts.first.len() || !are_along(cells, puts.runs.as_slice()) {
        let mut all = Names::new(alloc);
        all.push_all(names)?;
        let all = all.into_seq()?;
        let updates = rejoined(alloc, puts)?;
        return plain(store, alloc, worker, all.as_slice(), updates);
    }
    let mut in_front = Vec::with_capacity(alloc, first.len())?;
    keep_each(store, alloc, &mut in_front, first)?;
    let cells = keep_cells(store, alloc, cells)?;
    let mut behind = Vec::with_capacity(alloc, last.len())?;
    keep_each(store, alloc, &mut behind, last)?;
    let footprint = Accesses::of_parts(alloc, worker, in_front, cells, behind)?;
    let PutParts { first, runs, last } = puts;
    let parts = BackParts {
        first,
        cells: Vec::new(alloc),
        last,
    };
    Ok(Making {
        footprint,
        back: Backs::Parts(Box::new(alloc, parts)?),
        runs,
    })
}

/// A step of this footprint and these updates: each object is kept, so that its value can be put back
/// without a request for memory. No value changes, also when out of memory.
pub(crate) fn planned(
    store: &mut Memory,
    alloc: Global,
    footprint: &Footprint,
    updates: Puts,
) -> AllocResult<Making>
    ensures footprint { IfOk result (λ m. accesses_of m.footprint ≡ footprint.now) }
    ensures updates { IfOk result (λ m. wanted m.back m.runs ≡ updates) }
    ensures along { IfOk result (λ m. CanGoAlong m.footprint m.back m.runs) }
    ensures same { state_of store.new ≡ state_of store.old }
    ensures same_pasts { pasts_of store.new ≡ pasts_of store.old }
    ensures kept { OnOk result (Keeps store.new footprint.now) }
    ensures others_kept { (q : Obj) → is_kept store.old q ≡ true → is_kept store.new q ≡ true }
{
    let (worker, names) = footprint.parts();
    store.know_control(alloc, worker)?;
    let (first, cells, last) = names.parts();
    if cells.is_empty() && last.is_empty() {
        return plain(store, alloc, worker, first, updates.into_vec()?);
    }
    in_parts(store, alloc, worker, names, updates.into_parts())
}
