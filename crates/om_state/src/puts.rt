//! What a step changes beside its worker's control.

ghost use Rattle.std.specs.Prelude.{◌≡◌, ◌++◌, ◌∷◌, [], IfOk, OnOk};
ghost use Rattle.om_state.specs.Runs.{run_puts, runs_listed};

use crate::step::Update;
use crate::value::{Run, Val};
use om_seq::{AllocResult, Seq};
use std::alloc::Global;
use std::marker::Model;

// What is put behind the single updates in front: runs of puts for cells that are named at once, and
// single updates behind those.
#[derive(Drop)]
struct Behind {
    runs: Seq<Run>,
    last: Seq<Update>,
}

impl Model for Behind {
    ghost use Rattle.std.specs.Prelude.{List, ◌++◌};
    ghost use Rattle.om_state.specs.Runs.{runs_listed};
    ghost use Rattle.om_state.specs.declared.step.Update.{Update};

    ghost Value = { List Update };

    ghost view = { λ b. runs_listed b.runs ++ b.last };
}

/// What a step changes beside its worker's control: single updates, then runs of puts for cells that are
/// named at once, then single updates again.
///
/// Contracts see the updates alone, those of a run one by one.
pub struct Puts {
    alloc: Global,
    first: Seq<Update>,
    // In a box, as most steps have none: what a step changes is moved often.
    behind: Option<Box<Behind>>,
}

// By hand: other crates call this, and do not prove anew how each part is dropped.
impl Drop for Puts {
    fn drop(self) {
        let Puts {
            alloc: _,
            first,
            behind,
        } = self;
        drop(first);
        drop(behind);
    }
}

impl Model for Puts {
    ghost use Rattle.std.specs.Prelude.{List, ◌++◌};
    ghost use Rattle.om_foot.specs.Cells.{boxed_list};
    ghost use Rattle.om_state.specs.declared.step.Update.{Update};

    ghost Value = { List Update };

    ghost view = { λ p. p.first ++ boxed_list p.behind };
}

/// The parts of `Puts`.
#[derive(Drop)]
pub struct PutParts {
    pub first: Vec<Update>,
    pub runs: Seq<Run>,
    pub last: Vec<Update>,
}

// An update in front of others, with room for no more.
fn in_front(updates: Seq<Update>, update: Update) -> AllocResult<Seq<Update>>
    ensures { IfOk result (λ all. all ≡ update ∷ updates) }
{
    let mut items = updates.into_vec();
    items.reserve_exact(1)?;
    let mut all = Seq::of(items);
    all.push_front(update)?;
    Ok(all)
}

// Appends each put of a run.
fn push_each(updates: &mut Seq<Update>, run: &Run) -> AllocResult<()>
    ensures { OnOk result (updates.new ≡ updates.old ++ run_puts run.now) }
{
    for _index in 0..run.count {
        updates.push(Update::Put(Val::Cell(run.cell)))?;
    }
    Ok(())
}

// Appends each put of all of these runs.
fn list_each(updates: &mut Seq<Update>, runs: &[Run]) -> AllocResult<()>
    ensures { OnOk result (updates.new ≡ updates.old ++ runs_listed runs.now) }
{
    for run in runs {
        push_each(updates, run)?;
    }
    Ok(())
}

impl Behind {
    // Appends an update. When out of memory, no more is said of the updates.
    fn push(&mut self, update: Update) -> AllocResult<()>
        ensures { OnOk result (self.new ≡ self.old ++ update ∷ []) }
    {
        self.last.push(update)
    }

    // Appends the puts of a run. When out of memory, no more is said of the updates.
    fn push_run(&mut self, run: Run) -> AllocResult<()>
        ensures { OnOk result (self.new ≡ self.old ++ run_puts run) }
    {
        if self.last.is_empty() {
            self.runs.push(run)
        } else {
            push_each(&mut self.last, &run)
        }
    }
}

// What stands behind the updates in front, begun with a run.
fn begun(alloc: Global, run: Run) -> AllocResult<Box<Behind>>
    ensures { IfOk result (λ behind. behind.value ≡ run_puts run) }
{
    let runs = Seq::one(alloc, run)?;
    let last = Seq::new(alloc);
    Ok(Box::new(alloc, Behind { runs, last })?)
}

impl Puts {
    /// No updates. It takes no memory.
    pub fn new(alloc: Global) -> Puts
        ensures { result ≡ [] }
    {
        Puts::of(alloc, Seq::new(alloc))
    }

    /// These updates. It takes no memory.
    pub fn of(alloc: Global, first: Seq<Update>) -> Puts
        ensures { result ≡ first }
    {
        Puts {
            alloc,
            first,
            behind: None,
        }
    }

    /// The single updates in front, the runs behind them, and the single updates behind those.
    pub fn parts(&self) -> (&[Update], &[Run], &[Update])
        ensures { self.now ≡ result.0.now ++ (runs_listed result.1.now ++ result.2.now) }
    {
        match &self.behind {
            None => (self.first.as_slice(), &[], &[]),
            Some(behind) => {
                let behind: &Behind = behind;
                let (runs, last) = (behind.runs.as_slice(), behind.last.as_slice());
                (self.first.as_slice(), runs, last)
            }
        }
    }

    /// Appends an update. Its only error is out of memory; then no more is said of the updates.
    pub fn push(&mut self, update: Update) -> AllocResult<()>
        ensures { OnOk result (self.new ≡ self.old ++ update ∷ []) }
    {
        match &mut self.behind {
            None => self.first.push(update),
            Some(behind) => behind.push(update),
        }
    }

    /// Appends the puts of a run. Its only error is out of memory; then no more is said of the updates.
    pub fn push_run(&mut self, run: Run) -> AllocResult<()>
        ensures { OnOk result (self.new ≡ self.old ++ run_puts run) }
    {
        match &mut self.behind {
            Some(behind) => behind.push_run(run),
            None => {
                self.behind = Some(begun(self.alloc, run)?);
                Ok(())
            }
        }
    }

    /// These updates behind one more. The record of a step keeps them, so there is room for no others.
    /// Its only error is out of memory.
    pub fn behind(self, update: Update) -> AllocResult<Puts>
        ensures { IfOk result (λ all. all ≡ update ∷ self) }
    {
        let Puts {
            alloc,
            first,
            behind,
        } = self;
        let first = in_front(first, update)?;
        Ok(Puts {
            alloc,
            first,
            behind,
        })
    }

    /// The parts, to be taken apart. It takes no memory.
    pub fn into_parts(self) -> PutParts
        ensures { self ≡ result.first.items ++ (runs_listed result.runs ++ result.last.items) }
    {
        let Puts {
            alloc,
            first,
            behind,
        } = self;
        let first = first.into_vec();
        match behind {
            None => PutParts {
                first,
                runs: Seq::new(alloc),
                last: Vec::new(alloc),
            },
            Some(behind) => {
                let Behind { runs, last } = Box::into_inner(behind);
                PutParts {
                    first,
                    runs,
                    last: last.into_vec(),
                }
            }
        }
    }

    /// Each update by itself. Its only error is out of memory.
    pub fn into_vec(self) -> AllocResult<Vec<Update>>
        ensures { IfOk result (λ all. all.items ≡ self) }
    {
        let Puts {
            alloc: _,
            first,
            behind,
        } = self;
        let mut all = first;
        if let Some(behind) = behind {
            let Behind { runs, last } = Box::into_inner(behind);
            list_each(&mut all, runs.as_slice())?;
            all.append(last)?;
        }
        Ok(all.into_vec())
    }
}
