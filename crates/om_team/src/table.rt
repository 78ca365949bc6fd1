//! The tables of all instructions but those of tasks: each with its row.

ghost use Rattle.std.specs.Prelude.{◌≡◌, ◌^◌, IfSome};
ghost use Rattle.om_code.specs.declared.instruction.Instr.TheVariants as instructions;
ghost use Rattle.om_memory.specs.Memories.{state_of};
ghost use Rattle.om_memory.specs.Plain.{plain_stack};
ghost use Rattle.om_code.specs.Places.{instruction_at};
ghost use Rattle.om_team_serial.specs.Answers.{Gives, AnswersAt};
ghost use Rattle.om_team_serial.specs.Ready.{IsReady};
ghost use Rattle.om_team_serial.specs.Sites.{site_of};
ghost use Rattle.om_team.specs.Asked.{answer_in};
ghost use Rattle.om_team.specs.Counters.{IsWithin};
ghost use Rattle.om_team.specs.Table.{team_rows, row_of};

use crate::teams::{Forking, begin, fork};
use om_code::{Instr, Program, Team};
use om_memory::Stack;
use om_seq::AllocResult;
use om_team_serial::{Answer, At, Here, function_answer, number, serial_answer};
use om_team_worksharing::{arrive, depart, leave, region_answer, sharing_answer};

/// The instruction at which a stack stands, with what its row relies on; `None` where there is none.
pub fn instruction_of(program: &Program, stack: &Stack) -> Option<Instr>
    requires { IsWithin (2 ^ 63) (plain_stack stack.now).top }
    ensures same { result
        ≡ instruction_at program.now (plain_stack stack.now).top.frame.body
        (plain_stack stack.now).top.frame.next }
    ensures ready { IfSome result (λ instr. IsReady program.now (plain_stack stack.now) instr) }
{
    program.instruction(stack.top.frame.body, stack.top.frame.next)
}

/// What an instruction of parallel regions, their barriers and their members names beside its worker's
/// control, and what comes of the values there.
///
/// Nothing changes. The only error is out of memory.
pub fn team_answer(here: &Here<'_>, instr: Team) -> AllocResult<Answer>
    requires { IsReady here.now.program.now (plain_stack here.now.stack.now)
        (instructions.Team instr) }
    ensures { AnswersAt result (team_rows (site_of here.now) instr) here.now.store.now }
{
    let alloc = here.alloc;
    let worker = here.worker;
    let context = here.context();
    let at = At {
        worker,
        to: here.next(),
    };
    match instr {
        Team::ThreadNumber => number(alloc, context, context.team.get().number),
        Team::TeamSize => number(alloc, context, context.team.get().size),
        Team::Fork {
            body,
            sized,
            values,
        } => {
            let takes = u32::from(values) + u32::from(sized);
            let forking = Forking {
                worker,
                workers: here.workers,
                launch: here.launch(takes, body),
                body: here.body(body),
                context,
            };
            fork(alloc, here.store, &forking, sized, values)
        }
        Team::Begin => begin(alloc, at, context),
        Team::Arrive(barrier) => arrive(alloc, at, barrier, context),
        Team::Depart(barrier) => depart(alloc, here.store, at, barrier, context),
        Team::Leave => leave(alloc, here.store, worker, here.stack, here.slots()),
    }
}

/// What an instruction that is none of tasks names beside its worker's control, and what comes of
/// the values there; `None` where it is one of tasks.
///
/// Nothing changes. The only error is out of memory.
pub(crate) fn answer(here: &Here<'_>, instr: Instr) -> AllocResult<Option<Answer>>
    requires { IsReady here.now.program.now (plain_stack here.now.stack.now) instr }
    ensures { Gives result (answer_in (state_of here.now.store.now)
        (row_of (site_of here.now) instr)) }
{
    let answer = match instr {
        Instr::Serial(instr) => serial_answer(here, instr)?,
        Instr::Function(instr) => function_answer(here, instr)?,
        Instr::Team(instr) => team_answer(here, instr)?,
        Instr::Sharing(instr) => sharing_answer(here, instr)?,
        Instr::Region(instr) => region_answer(here, instr)?,
        Instr::Task(_) => return Ok(None),
    };
    Ok(Some(answer))
}
