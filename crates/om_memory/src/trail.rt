//! A worker's control with the trail of its changes, which leads back to its start.

ghost use Rattle.std.specs.Prelude.{◌≡◌, ◌<◌, ◌∷◌, [], true, OnOk, OnErr, length};
ghost use Rattle.om_state.specs.Edits.{HasRoom, HaveRoom};
ghost use Rattle.om_memory.specs.Plain.{plain_control};
ghost use Rattle.om_memory.specs.Inverses.{reverted, CanRevert};
ghost use Rattle.om_memory.specs.Trails.{CanRewind, past_of, stepped, became, undone};
ghost use Rattle.om_memory.specs.Changed.{HasChanged, HasMade, logged, IsNoted};

use crate::control::{Control, Inverse, Logged};
use crate::edit::{apply, become_control, revert};
use crate::live::control_of;
use om_seq::{AllocResult, Pile, Seq};
use om_state::{Control as PlainControl, Edit};
use std::alloc::{AllocError, Global};
use std::marker::Model;

/// A worker's control, with what takes its changes back.
///
/// Contracts see the control now, and what it was before each change that stands, the latest first.
/// A change that was taken back, or found no memory, is none.
#[derive(Drop)]
pub struct Trail {
    control: Control,
    inverses: Pile<Logged>,
}

impl Model for Trail {
    ghost use Rattle.om_memory.specs.Plain.{plain_control};
    ghost use Rattle.om_memory.specs.Trails.{TrailView, CanRewind, past_of};

    ghost Value = { TrailView };

    ghost view = { λ t. record
        { now = plain_control t.control; past = past_of t.inverses t.control } };

    ghost invariant = { λ t. CanRewind t.inverses t.control };
}

// Logs what takes an edit back that was made. When out of memory, the edit is taken back.
fn log(
    control: &mut Control,
    inverses: &mut Pile<Logged>,
    inverse: Inverse,
    begins: bool,
) -> AllocResult<()>
    requires { CanRevert inverse control.old }
    ensures logged { OnOk result (inverses.new ≡ logged inverse begins inverses.old) }
    ensures same { OnOk result (control.new ≡ control.old) }
    ensures unlogged_on_error { OnErr result (inverses.new ≡ inverses.old) }
    ensures reverted_on_error { OnErr result (control.new ≡ reverted inverse control.old) }
{
    if let Err(failed) = inverses.push(Logged { inverse, begins }) {
        revert(control, failed.value.inverse);
        return Err(AllocError);
    }
    Ok(())
}

// Makes one edit and logs what takes it back. When out of memory, nothing changes.
fn edit_logged(
    alloc: Global,
    control: &mut Control,
    inverses: &mut Pile<Logged>,
    edit: Edit,
    begins: bool,
) -> AllocResult<()>
    requires room { HasRoom edit (plain_control control.old) }
    requires can_rewind { CanRewind inverses.old control.old }
    ensures changed { OnOk result (HasChanged edit control.old control.new) }
    ensures past { OnOk result
        (IsNoted begins inverses.old control.old inverses.new control.new) }
    ensures can_rewind { OnOk result (CanRewind inverses.new control.new) }
    ensures same_control_on_error { OnErr result (control.new ≡ control.old) }
    ensures same_log_on_error { OnErr result (inverses.new ≡ inverses.old) }
{
    let inverse = apply(alloc, control, edit)?;
    log(control, inverses, inverse, begins)
}

// Makes a change of edits, in turn. When out of memory, those that were made are taken back.
fn edit_all(
    alloc: Global,
    control: &mut Control,
    inverses: &mut Pile<Logged>,
    edits: Vec<Edit>,
) -> AllocResult<()>
    requires room { HaveRoom edits.items (plain_control control.old) }
    requires can_rewind { CanRewind inverses.old control.old }
    ensures changed { OnOk result (HasMade edits.items control.old control.new) }
    ensures past { OnOk result
        (IsNoted true inverses.old control.old inverses.new control.new) }
    ensures unchanged_on_error { OnErr result (HasMade [] control.old control.new) }
    ensures same_past_on_error { OnErr result (past_of inverses.new control.new
        ≡ past_of inverses.old control.old) }
    ensures can_rewind { CanRewind inverses.new control.new }
{
    let mut begins = true;
    for edit in edits {
        if let Err(error) = edit_logged(alloc, control, inverses, edit, begins) {
            if !begins {
                rewind(control, inverses);
            }
            return Err(error);
        }
        begins = false;
    }
    if begins {
        return log(control, inverses, Inverse::Same, true);
    }
    Ok(())
}

// Goes back to where the latest change began. It takes no memory.
fn rewind(control: &mut Control, inverses: &mut Pile<Logged>)
    requires can_rewind { CanRewind inverses.old control.old }
    requires stepped { 0 < length (past_of inverses.old control.old) }
    ensures past { plain_control control.new ∷ past_of inverses.new control.new
        ≡ past_of inverses.old control.old }
    ensures can_rewind { CanRewind inverses.new control.new }
{
    for _ in 0..inverses.len() {
        let Some(Logged { inverse, begins }) = inverses.pop() else {
            unreachable!()
        };
        revert(control, inverse);
        if begins {
            return;
        }
    }
    unreachable!()
}

impl Trail {
    /// The trail of a worker that has this control and made no step. It takes no memory.
    pub fn of(alloc: Global, control: Control) -> Trail
        ensures { result ≡ record { now = plain_control control; past = [] } }
    {
        Trail {
            control,
            inverses: Pile::new(alloc),
        }
    }

    /// The control now.
    pub fn control(&self) -> &Control
        ensures { plain_control result.now ≡ self.now.now }
    {
        &self.control
    }

    /// Makes a step of edits, in place. When out of memory, nothing changes.
    pub fn step(&mut self, alloc: Global, edits: Seq<Edit>) -> AllocResult<()>
        requires { HaveRoom edits self.old.now }
        ensures stepped { OnOk result (self.new ≡ stepped edits self.old) }
        ensures unchanged_on_error { OnErr result (self.new ≡ self.old) }
    {
        let edits = edits.into_vec();
        edit_all(alloc, &mut self.control, &mut self.inverses, edits)
    }

    /// Puts another control, as a FORK does for a member. When out of memory, nothing changes.
    pub fn become_other(&mut self, alloc: Global, next: &PlainControl) -> AllocResult<()>
        ensures became { OnOk result (self.new ≡ became next.now self.old) }
        ensures unchanged_on_error { OnErr result (self.new ≡ self.old) }
    {
        let next = control_of(alloc, next)?;
        let inverse = become_control(alloc, &mut self.control, next)?;
        log(&mut self.control, &mut self.inverses, inverse, true)
    }

    /// Takes the latest change that stands back, in place. It takes no memory.
    pub fn undo(&mut self)
        requires { 0 < length self.old.past }
        ensures { self.new ≡ undone self.old }
    {
        rewind(&mut self.control, &mut self.inverses);
    }
}
