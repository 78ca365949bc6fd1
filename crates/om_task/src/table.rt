//! The whole table: each instruction with its row, those of tasks among them.

ghost use Rattle.om_code.specs.declared.instruction.Instr.TheVariants as instructions;
ghost use Rattle.om_memory.specs.Plain.{plain_stack};
ghost use Rattle.om_team_serial.specs.Answers.{AnswersAt};
ghost use Rattle.om_team_serial.specs.Ready.{IsReady};
ghost use Rattle.om_team_serial.specs.Sites.{site_of};
ghost use Rattle.om_task.specs.Table.{task_rows, row_of};

use crate::task::{Making, spawn, task_end, task_yield};
use crate::wait::{group_begin, group_end, wait_begin, wait_end};
use om_code::{Instr, Task};
use om_seq::AllocResult;
use om_team::table::team_answer;
use om_team_serial::{Answer, Here, function_answer, serial_answer};
use om_team_worksharing::{region_answer, sharing_answer};

// Tasks and task groups.
fn task_answer(here: &Here<'_>, instr: Task) -> AllocResult<Answer>
    requires { IsReady here.now.program.now (plain_stack here.now.stack.now)
        (instructions.Task instr) }
    ensures { AnswersAt result (task_rows (site_of here.now) instr) here.now.store.now }
{
    let alloc = here.alloc;
    let worker = here.worker;
    let context = here.context();
    let to = here.next();
    match instr {
        Task::Spawn { body, values } => {
            let making = Making {
                worker,
                line: here.line(),
                launch: here.launch(u32::from(values), body),
            };
            spawn(alloc, &making, here.body(body), context)
        }
        Task::TaskEnd => task_end(alloc, worker, here.stack, here.slots()),
        Task::WaitBegin => wait_begin(alloc, worker, to, context),
        Task::WaitEnd => wait_end(alloc, here.store, worker, to, context),
        Task::Yield => task_yield(alloc, to),
        Task::GroupBegin => group_begin(alloc, worker, to, context),
        Task::GroupEnd => group_end(alloc, here.store, worker, to, context),
    }
}

/// What an instruction names beside its worker's control, and what comes of the values there.
///
/// Nothing changes. The only error is out of memory.
pub(crate) fn answer(here: &Here<'_>, instr: Instr) -> AllocResult<Answer>
    requires { IsReady here.now.program.now (plain_stack here.now.stack.now) instr }
    ensures { AnswersAt result (row_of (site_of here.now) instr) here.now.store.now }
{
    match instr {
        Instr::Serial(instr) => serial_answer(here, instr),
        Instr::Function(instr) => function_answer(here, instr),
        Instr::Team(instr) => team_answer(here, instr),
        Instr::Sharing(instr) => sharing_answer(here, instr),
        Instr::Region(instr) => region_answer(here, instr),
        Instr::Task(instr) => task_answer(here, instr),
    }
}
