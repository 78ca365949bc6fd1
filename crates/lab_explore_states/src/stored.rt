//! A set of states.

ghost use Rattle.std.specs.Prelude.{◌≡◌, ◌∷◌, ◌<◌, ◌^◌, true, Some, List, Contains, IfOk, OnOk, OnErr, length};
ghost use Rattle.om_state.specs.State.{State};
ghost use Rattle.om_task.specs.Rules.{start_of};
ghost use Rattle.om_undo.specs.Machines.{state_in, step_reply, with_step};
ghost use Rattle.om_undo.specs.PlannedSteps.{is_made, touched_if_made};
ghost use Rattle.lab_explore_rows.specs.Tables.{Extends};
ghost use Rattle.lab_explore_states.specs.Sets.{at_the_start, gone_to, GoesBack, Inserts, StandsAt, seen};
ghost use Rattle.lab_explore_states.specs.declared.standing.Standing.{Standing};
ghost use Rattle.lab_explore_states.specs.Standings.{IsSame, IsStanding, PutsIn, cut_of, standings, state_of};
ghost use Rattle.lab_explore_states.specs.Touched.{AreBy, ArePlaced, StaysBut, objects_of, start_at};

use crate::standing::Standing;
use crate::touched::{Touched, put_touched, touched_by};
use lab_explore_rows::laws::rows_tell_apart;
use lab_explore_rows::{Row, Tables, WordTable};
use om_foot::{Access, Mode, Names, Obj};
use om_seq::{AllocResult, Seq};
use om_state::Footprint;
use om_undo::{Machine, PlannedStep};
use std::alloc::Global;
use std::marker::Model;
use std::mem::replace;
use std::snapshot::Snapshot;

/// A set of states of one program with so many workers, which walks with a machine.
///
/// Contracts see machines at the state where it stands, at those where it stood before, and at those that were put into
/// it, in the order in which they came. `seen` is their states. It stands at the start first.
pub struct Stored {
    // A machine of the program.
    of: Snapshot<Machine>,
    tables: Tables,
    here: Standing,
    // Where it stood before, the latest last.
    past: Vec<Standing>,
    // The rows of the states that were put in, without the zeros at their ends.
    rows: WordTable,
    // Where it stood when it put them in.
    states: Vec<Snapshot<Standing>>,
    // How often it had gone on when it put them in, by the numbers of their rows.
    depths: Vec<usize>,
}

// By hand: other crates call this, and do not prove anew how each part is dropped.
impl Drop for Stored {
    fn drop(self) {
        let Stored {
            of: _,
            tables,
            here,
            past,
            rows,
            states,
            depths,
        } = self;
        drop(tables);
        drop(here);
        drop(past);
        drop(rows);
        drop(states);
        drop(depths);
    }
}

impl Model for Stored {
    ghost use Rattle.std.specs.Prelude.{map, reverse};
    ghost use Rattle.om_task.specs.Rules.{start_of};
    ghost use Rattle.lab_explore_rows.specs.Tables.{Extends};
    ghost use Rattle.lab_explore_states.specs.Sets.{WalkView};
    ghost use Rattle.lab_explore_states.specs.Standings.{AreKept, machine_of, standings};

    ghost Value = { WalkView };

    ghost view = { λ s. record {
      program = s.of.value.program;
      workers = s.of.value.workers;
      at = machine_of s.here;
      past = map machine_of (reverse s.past.items);
      states = map machine_of (standings s.states.items);
    } };

    ghost invariant = { λ s. AreKept (start_of s.of.value.program s.of.value.workers) s.tables s.here s.past.items
        s.rows (standings s.states.items) };
}

// The accesses of a step that can be made, one by one. The only error is out of memory.
fn accesses_of(alloc: Global, step: &PlannedStep) -> AllocResult<Seq<Access>>
    requires { is_made (step_reply step.now.machine step.now.label) ≡ true }
    ensures { IfOk result (λ all. Some all ≡ touched_if_made step.now.machine step.now.label) }
{
    match step.footprint() {
        Some(footprint) => listed(alloc, footprint),
        None => unreachable!(),
    }
}

// The accesses of a footprint, one by one. The only error is out of memory.
fn listed(alloc: Global, footprint: &Footprint) -> AllocResult<Seq<Access>>
    ensures { IfOk result (λ all. all ≡ footprint.now) }
{
    let (worker, others) = footprint.parts();
    let mut all = Names::new(alloc);
    all.push(&Access {
        object: Obj::Control(worker),
        mode: Mode::Write,
    })?;
    all.push_all(others)?;
    all.into_seq()
}

// Takes a step that can be made, of a machine that stands at a row's state; the row and the state to which it leads.
// The only error is out of memory; no number changes.
fn walked(
    tables: &mut Tables,
    alloc: Global,
    here: &Standing,
    machine: &mut Machine,
    step: PlannedStep,
) -> AllocResult<Standing>
    requires planned { step.machine ≡ machine.old }
    requires few_made { machine.old.history.made < 2 ^ 63 }
    requires possible { is_made (step_reply machine.old step.label) ≡ true }
    requires stands { state_of here.now ≡ state_in machine.old }
    requires by_start { AreBy (start_at machine.old) tables.old }
    requires here { IsStanding (start_at machine.old) tables.old here.now }
    ensures made { OnOk result (machine.new ≡ with_step machine.old step.label) }
    ensures there { IfOk result (IsStanding (start_at machine.old) tables.new) }
    ensures at { IfOk result (λ there. state_of there ≡ state_in machine.new) }
    ensures by_start { AreBy (start_at machine.old) tables.new }
    ensures extends { Extends tables.old tables.new }
{
    let accesses = accesses_of(alloc, &step)?;
    let touched = touched_by(tables, alloc, machine, accesses.as_slice())?;
    let _ = machine.take(alloc, step)?;
    followed(tables, alloc, here, machine, touched.as_slice())
}

// The row and the state where a machine is, by the row of a state that is the same but at these objects. The only
// error is out of memory; no number changes.
fn followed(
    tables: &mut Tables,
    alloc: Global,
    here: &Standing,
    machine: &Machine,
    touched: &[Touched],
) -> AllocResult<Standing>
    requires by_start { AreBy (start_at machine.now) tables.old }
    requires placed { ArePlaced tables.old touched.now }
    requires here { IsStanding (start_at machine.now) tables.old here.now }
    requires stays { StaysBut (objects_of touched.now) (state_of here.now) (state_in machine.now) }
    ensures there { IfOk result (IsStanding (start_at machine.now) tables.new) }
    ensures at { IfOk result (λ there. state_of there ≡ state_in machine.now) }
    ensures by_start { AreBy (start_at machine.now) tables.new }
    ensures extends { Extends tables.old tables.new }
{
    let mut row = here.row.copy(alloc)?;
    put_touched(tables, alloc, machine, touched, &mut row)?;
    Ok(Standing {
        row,
        machine: Snapshot::of(machine),
    })
}

// Puts a row in without the zeros at its end; `false` where it was there. When out of memory, nothing changes.
fn put_in(
    rows: &mut WordTable,
    states: &mut Vec<Snapshot<Standing>>,
    alloc: Global,
    here: &Standing,
) -> AllocResult<bool>
    ensures put_in { IfOk result (λ added. PutsIn here.now added rows.old (standings states.old.items)
        rows.new (standings states.new.items)) }
    ensures unchanged_on_error { OnErr result (IsSame rows.old (standings states.old.items)
        rows.new (standings states.new.items)) }
{
    let row = here.row.cut();
    if rows.number(row).is_some() {
        return Ok(false);
    }
    states.reserve(1)?;
    rows.add(alloc, row)?;
    states.push_reserved(Snapshot::of(here));
    Ok(true)
}

// How often a set had gone on when it put in a row; `None` where it did not.
fn depth_of(rows: &WordTable, depths: &[usize], row: &[u32]) -> Option<usize> {
    let number = rows.number(row)?;
    depths.get(number as usize).copied()
}

// Whether a set had a row, without the zeros at its end, where it had gone on so often.
fn is_at(past: &[Standing], depth: usize, row: &[u32]) -> bool
    ensures { result ≡ true
        → (before : Standing) × Contains past.now before × (cut_of before ≡ row.now) }
{
    match past.get(depth) {
        Some(before) => before.row.cut() == row,
        None => false,
    }
}

impl Stored {
    /// A set that stands at the start, where a machine is, with nothing in it. It takes no memory.
    pub fn new(alloc: Global, machine: &Machine) -> Stored
        requires { state_in machine.now ≡ start_of machine.now.program machine.now.workers }
        ensures { seen result ≡ at_the_start machine.now.program machine.now.workers }
    {
        Stored {
            of: Snapshot::of(machine),
            tables: Tables::new(alloc),
            here: Standing {
                row: Row::new(alloc),
                machine: Snapshot::of(machine),
            },
            past: Vec::new(alloc),
            rows: WordTable::new(alloc),
            states: Vec::new(alloc),
            depths: Vec::new(alloc),
        }
    }

    /// How many states are in it.
    pub fn len(&self) -> usize
        ensures { result ≡ length (seen self.now).states }
    {
        self.rows.len()
    }

    /// Takes a step that can be made, of a machine that stands where the set stands, and goes where it leads. When
    /// out of memory, the set stays, and the machine has made the step or not.
    pub fn take(
        &mut self,
        alloc: Global,
        machine: &mut Machine,
        step: PlannedStep,
    ) -> AllocResult<()>
        requires planned { step.machine ≡ machine.old }
        requires few_made { machine.old.history.made < 2 ^ 63 }
        requires possible { is_made (step_reply machine.old step.label) ≡ true }
        requires stands { StandsAt machine.old (seen self.old) }
        ensures made { OnOk result (machine.new ≡ with_step machine.old step.label) }
        ensures follows { OnOk result (seen self.new
            ≡ gone_to (state_in machine.new) (seen self.old)) }
        ensures unchanged_on_error { OnErr result (self.new ≡ self.old) }
    {
        self.past.reserve(1)?;
        let there = walked(&mut self.tables, alloc, &self.here, machine, step)?;
        self.past.push_reserved(replace(&mut self.here, there));
        Ok(())
    }

    /// Goes back to where it stood before. It takes no memory.
    pub fn back(&mut self)
        requires { (s : State) × (before : List State) × ((seen self.old).past ≡ s ∷ before) }
        ensures { GoesBack (seen self.old) (seen self.new) }
    {
        match self.past.pop() {
            Some(before) => self.here = before,
            None => unreachable!(),
        }
    }

    /// Puts the state where it stands into the set; `false` where it was there. When out of memory, nothing changes.
    pub fn insert(&mut self, alloc: Global) -> AllocResult<bool>
        ensures inserted { IfOk result (λ added. Inserts added (seen self.old) (seen self.new)) }
        ensures unchanged_on_error { OnErr result (self.new ≡ self.old) }
    {
        rows_tell_apart();
        self.depths.reserve(1)?;
        let added = put_in(&mut self.rows, &mut self.states, alloc, &self.here)?;
        if added {
            self.depths.push_reserved(self.past.len());
        }
        Ok(added)
    }

    /// Whether it has stood before at the state where it stands, and has not gone back since. It looks only at where it
    /// stood when this state was put in: so `false` promises nothing.
    pub fn is_round(&self) -> bool
        ensures { result ≡ true → Contains (seen self.now).past (seen self.now).at }
    {
        rows_tell_apart();
        let row = self.here.row.cut();
        match depth_of(&self.rows, self.depths.as_slice(), row) {
            Some(depth) => is_at(self.past.as_slice(), depth, row),
            None => false,
        }
    }
}
