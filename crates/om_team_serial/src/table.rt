//! The tables of serial instructions and of those of functions: each with its row.

ghost use Rattle.om_code.specs.declared.instruction.Instr.TheVariants as instructions;
ghost use Rattle.om_memory.specs.Plain.{plain_stack};
ghost use Rattle.om_team_serial.specs.Answers.{AnswersAt};
ghost use Rattle.om_team_serial.specs.Ready.{IsReady};
ghost use Rattle.om_team_serial.specs.Sites.{site_of};
ghost use Rattle.om_team_serial.specs.Table.{function_rows, serial_rows};

use crate::acts::serial;
use crate::ends::finish;
use crate::frames::{call, give_back};
use crate::here::Here;
use crate::row::Answer;
use om_code::frame::Operand;
use om_code::print::ints_on;
use om_code::serial::int_at;
use om_code::{Function, Serial};
use om_seq::AllocResult;

/// What a serial instruction names beside its worker's control, and what comes of the values there.
///
/// Nothing changes. The only error is out of memory.
pub fn serial_answer(here: &Here<'_>, instr: Serial) -> AllocResult<Answer>
    requires { IsReady here.now.program.now (plain_stack here.now.stack.now)
        (instructions.Serial instr) }
    ensures { AnswersAt result (serial_rows (site_of here.now) instr) here.now.store.now }
{
    let raw = here.program.raw();
    serial(here.alloc, raw, here.store, &here.stack.top, instr)
}

/// What a call, a return or the end of the program names beside its worker's control, and what comes of the
/// values there.
///
/// Nothing changes. The only error is out of memory.
pub fn function_answer(here: &Here<'_>, instr: Function) -> AllocResult<Answer>
    requires { IsReady here.now.program.now (plain_stack here.now.stack.now)
        (instructions.Function instr) }
    ensures { AnswersAt result (function_rows (site_of here.now) instr) here.now.store.now }
{
    let alloc = here.alloc;
    let context = here.context();
    match instr {
        Function::Call { body, values } => {
            let ints = ints_on(alloc, usize::from(values), &here.operands())?;
            let launch = here.launch(u32::from(values), body);
            call(alloc, launch, here.body(body), context, ints)
        }
        Function::Return => {
            let value = int_at(&here.operands(), 0).map(Operand::Int);
            give_back(alloc, context, here.slots(), value)
        }
        Function::ReturnNothing => {
            give_back(alloc, context, here.slots(), Some(Operand::NoValue))
        }
        Function::Finish { has_value } => {
            finish(alloc, here.store, here.worker, context, has_value)
        }
    }
}
