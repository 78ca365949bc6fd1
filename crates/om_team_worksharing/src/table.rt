//! The tables of what members of a team share, and of masked and critical regions: each instruction with its row.

ghost use Rattle.std.specs.Prelude.{◌≡◌};
ghost use Rattle.om_code.specs.declared.instruction.Instr.TheVariants as instructions;
ghost use Rattle.om_memory.specs.Plain.{plain_stack};
ghost use Rattle.om_team_serial.specs.Answers.{AnswersAt};
ghost use Rattle.om_team_serial.specs.Ready.{IsReady};
ghost use Rattle.om_team_serial.specs.Sites.{site_of, lock_of, targets_of};
ghost use Rattle.om_team_worksharing.specs.Table.{sharing_rows, region_rows};

use crate::{
    Bounds, Branch, ask_critical, end_masked, end_worksharing, enter_critical, grab, iterate,
    leave_critical, masked, open_loop, open_sections, pick, single,
};
use om_code::serial::int_at;
use om_code::{Program, Region, Sharing};
use om_seq::AllocResult;
use om_team_serial::{Answer, At, Combining, Here, reduce};

// The targets of a PICK.
fn targets(program: &Program, list: u32) -> &[u32]
    ensures { result.now ≡ targets_of program.now list }
{
    match program.raw().picks.as_slice().get(list as usize) {
        Some(targets) => targets.as_slice(),
        None => &[],
    }
}

// The name of a lock.
fn lock_name(program: &Program, lock: u32) -> &[u8]
    ensures { result.now ≡ lock_of program.now lock }
{
    match program.raw().locks.as_slice().get(lock as usize) {
        Some(name) => name.as_slice(),
        None => &[],
    }
}

/// What an instruction of what members of a team share names beside its worker's control, and what comes of
/// the values there.
///
/// Nothing changes. The only error is out of memory.
pub fn sharing_answer(here: &Here<'_>, instr: Sharing) -> AllocResult<Answer>
    requires { IsReady here.now.program.now (plain_stack here.now.stack.now)
        (instructions.Sharing instr) }
    ensures { AnswersAt result (sharing_rows (site_of here.now) instr) here.now.store.now }
{
    let alloc = here.alloc;
    let context = here.context();
    let to = here.next();
    let at = At {
        worker: here.worker,
        to,
    };
    match instr {
        Sharing::Loop(form) => {
            let operands = &here.operands();
            let bounds = Bounds {
                lower: int_at(operands, 1),
                upper: int_at(operands, 0),
            };
            open_loop(alloc, context, at, form, bounds)
        }
        Sharing::Sections(count) => open_sections(alloc, context, at, count),
        Sharing::Grab(otherwise) => grab(alloc, here.store, context, Branch { to, otherwise }),
        Sharing::Iterate { slot, otherwise } => {
            iterate(alloc, context, Branch { to, otherwise }, slot)
        }
        Sharing::Pick(list) => pick(alloc, context, targets(here.program, list)),
        Sharing::Single(otherwise) => {
            single(
                alloc,
                here.store,
                context,
                here.worker,
                Branch { to, otherwise },
            )
        }
        Sharing::EndWorksharing => end_worksharing(alloc, context, at),
        Sharing::Reduce {
            reduction,
            copy,
            place,
        } => {
            let combining = Combining {
                reduction,
                copy,
                original: place,
            };
            reduce(alloc, here.store, context, combining)
        }
    }
}

/// What an instruction of masked and critical regions names beside its worker's control, and what comes of
/// the values there.
///
/// Nothing changes. The only error is out of memory.
pub fn region_answer(here: &Here<'_>, instr: Region) -> AllocResult<Answer>
    requires { IsReady here.now.program.now (plain_stack here.now.stack.now)
        (instructions.Region instr) }
    ensures { AnswersAt result (region_rows (site_of here.now) instr) here.now.store.now }
{
    let alloc = here.alloc;
    let context = here.context();
    let to = here.next();
    let at = At {
        worker: here.worker,
        to,
    };
    match instr {
        Region::Masked(otherwise) => {
            let number = int_at(&here.operands(), 0);
            masked(
                alloc,
                context,
                here.worker,
                Branch { to, otherwise },
                number,
            )
        }
        Region::EndMasked => end_masked(alloc, context, at),
        Region::AskCritical(lock) => ask_critical(alloc, at, lock_name(here.program, lock)),
        Region::EnterCritical(lock) => {
            enter_critical(alloc, here.store, at, lock, lock_name(here.program, lock))
        }
        Region::LeaveCritical(lock) => {
            leave_critical(alloc, context, at, lock, lock_name(here.program, lock))
        }
    }
}
