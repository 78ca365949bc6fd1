//! What a step did, in words: its instruction, the variable that it names, and a value.

ghost use Rattle.std.specs.Prelude.{◌≡◌, is_some, IfOk};
ghost use Rattle.lab_replay.specs.Said.{TellsNumber, number_by};

use crate::value::{number_put, push_value};
use crate::variable::{local_at, place_of, push_index, push_variable};
use om_code::frame::Fault;
use om_code::instruction::Place;
use om_code::{Function, Instr, Program, Region, Serial, Sharing, Task, Team};
use om_memory::{Control, Frame, Memory};
use om_seq::{AllocResult, Seq};
use om_shell_commands::push_numbered;
use om_state::Label;
use om_task::{Choice, Plan};
use std::alloc::Global;

/// What is said of a step that was made.
#[derive(Drop)]
pub(crate) struct Spoken {
    /// The name of its instruction.
    pub(crate) instruction: Seq<u8>,
    /// The cell of a local variable that it names.
    pub(crate) variable: Seq<u8>,
    /// The variable and a value, or the fault that the step met.
    pub(crate) value: Seq<u8>,
    /// Whether it met a fault.
    pub(crate) is_fault: bool,
}

/// The words of a step: its instruction, and the variable and the number that it has.
#[derive(Drop)]
pub(crate) struct Words {
    name: Vec<u8>,
    variable: Vec<u8>,
    // The variable or region that the instruction names, or the task that is started.
    named: Vec<u8>,
    // The number that the step puts into a variable, if it puts one.
    number: Option<i32>,
}

impl Words {
    /// The name of the instruction of a label's step, with the variable that it names and the number
    /// that it puts there, by the store before it and its plan. The only error is out of memory.
    pub(crate) fn of(
        alloc: Global,
        program: &Program,
        store: &Memory,
        label: &Label,
        plan: &Plan,
    ) -> AllocResult<Words>
        ensures { IfOk result (λ words. words.number ≡ number_by plan.now) }
    {
        let mut name = Vec::new(alloc);
        let mut variable = Vec::new(alloc);
        let mut named = Vec::new(alloc);
        if let Choice::Start(task) = &label.choice {
            name.extend_from_slice(b"START")?;
            task.text(&mut named)?;
        } else if let Some(Control::Running(stack)) = store.control(label.worker) {
            push_instruction(&mut name, &mut named, program, &stack.top.frame, plan)?;
            push_variable(&mut variable, program, &stack.top.frame, plan)?;
        }
        Ok(Words {
            name,
            variable,
            named,
            number: number_put(plan),
        })
    }

    /// What is said of the step, by the store after it and the fault that it met: the fault, or else its
    /// value, which is the number that it put into a variable, or else the one that it left on its
    /// worker's stack. The only error is out of memory.
    pub(crate) fn spoken(
        self,
        store: &Memory,
        worker: u8,
        fault: Option<Fault>,
    ) -> AllocResult<Spoken>
        ensures is_fault { IfOk result (λ spoken. spoken.is_fault ≡ is_some fault) }
        ensures value { IfOk result (λ spoken. TellsNumber self.number fault spoken.value) }
    {
        let Words {
            name,
            variable,
            named,
            number,
        } = self;
        let mut value = named;
        push_value(&mut value, store, worker, number, fault)?;
        Ok(Spoken {
            instruction: Seq::of(name),
            variable: Seq::of(variable),
            value: Seq::of(value),
            is_fault: fault.is_some(),
        })
    }
}

// Appends the name of the instruction that a frame is at, and the variable or region that it names, by
// the plan of its step.
fn push_instruction(
    name: &mut Vec<u8>,
    named: &mut Vec<u8>,
    program: &Program,
    frame: &Frame,
    plan: &Plan,
) -> AllocResult<()> {
    let Some(instruction) = program.instruction(frame.body, frame.next) else {
        return Ok(());
    };
    name.extend_from_slice(name_of(instruction))?;
    if let Some(place) = place_of(instruction) {
        return push_place(named, program, frame, place, plan);
    }
    let Instr::Region(
        Region::AskCritical(lock) | Region::EnterCritical(lock) | Region::LeaveCritical(lock),
    ) = instruction
    else {
        return Ok(());
    };
    push_lock(named, program, lock)
}

// Appends the name of a critical region, where it has one.
fn push_lock(text: &mut Vec<u8>, program: &Program, lock: u32) -> AllocResult<()> {
    if let Some(name) = program.raw().locks.as_slice().get(lock as usize) {
        text.extend_from_slice(name.as_slice())?;
    }
    Ok(())
}

// Appends the name of a global variable, where there is one of this number, and the index that the step
// of a plan has there.
fn push_global(
    text: &mut Vec<u8>,
    program: &Program,
    variable: u32,
    plan: &Plan,
) -> AllocResult<()> {
    let Some(global) = program.globals().get(variable as usize) else {
        return Ok(());
    };
    text.extend_from_slice(global.name.as_slice())?;
    push_index(text, global.length.is_some(), plan)
}

// Appends the name of a variable where a frame is, or the number of its slot. An array's has the index
// that the step of a plan has there.
fn push_place(
    text: &mut Vec<u8>,
    program: &Program,
    frame: &Frame,
    place: Place,
    plan: &Plan,
) -> AllocResult<()> {
    match place {
        Place::Global(variable) => push_global(text, program, variable, plan),
        Place::Slot(slot) => match local_at(program, frame, slot) {
            Some(local) => {
                text.extend_from_slice(local.name)?;
                push_index(text, local.is_array, plan)
            }
            None => push_numbered(text, b"slot ", slot),
        },
    }
}

// The name of an instruction.
fn name_of(instruction: Instr) -> &'static [u8] {
    match instruction {
        Instr::Serial(serial) => serial_name(serial),
        Instr::Function(function) => function_name(function),
        Instr::Team(team) => team_name(team),
        Instr::Sharing(sharing) => sharing_name(sharing),
        Instr::Region(region) => region_name(region),
        Instr::Task(task) => task_name(task),
    }
}

// The name of an instruction of this family.
fn serial_name(serial: Serial) -> &'static [u8] {
    match serial {
        Serial::Constant(_) => b"CONST",
        Serial::Duplicate => b"DUP",
        Serial::Pop => b"POP",
        Serial::Nop => b"NOP",
        Serial::Unary(_) => b"UN",
        Serial::Binary(_) => b"BIN",
        Serial::Jump(_) => b"JMP",
        Serial::JumpIfZero(_) => b"JZ",
        Serial::Use => b"USE",
        Serial::Load(_) => b"LOAD",
        Serial::Store { .. } => b"STORE",
        Serial::LoadElement(_) => b"LOADX",
        Serial::StoreElement { .. } => b"STOREX",
        Serial::Clear(_) => b"CLEAR",
        Serial::Print { .. } => b"PRINT",
        Serial::Atomic { .. } => b"ATOM",
        Serial::AtomicElement { .. } => b"ATOMX",
    }
}

// The name of an instruction of this family.
fn function_name(function: Function) -> &'static [u8] {
    match function {
        Function::Call { .. } => b"CALL",
        Function::Return => b"RET",
        Function::ReturnNothing => b"RETN",
        Function::Finish { .. } => b"FIN",
    }
}

// The name of an instruction of this family.
fn team_name(team: Team) -> &'static [u8] {
    match team {
        Team::ThreadNumber => b"TNUM",
        Team::TeamSize => b"TSIZE",
        Team::Fork { .. } => b"FORK",
        Team::Begin => b"BEGIN",
        Team::Arrive(_) => b"ARRIVE",
        Team::Depart(_) => b"DEPART",
        Team::Leave => b"LEAVE",
    }
}

// The name of an instruction of this family.
fn sharing_name(sharing: Sharing) -> &'static [u8] {
    match sharing {
        Sharing::Loop(_) => b"LOOP",
        Sharing::Sections(_) => b"SECT",
        Sharing::Grab(_) => b"GRAB",
        Sharing::Iterate { .. } => b"ITER",
        Sharing::Pick(_) => b"PICK",
        Sharing::Single(_) => b"SINGLE",
        Sharing::EndWorksharing => b"ENDW",
        Sharing::Reduce { .. } => b"RED",
    }
}

// The name of an instruction of this family.
fn region_name(region: Region) -> &'static [u8] {
    match region {
        Region::Masked(_) => b"MASKED",
        Region::EndMasked => b"ENDM",
        Region::AskCritical(_) => b"CRACQ",
        Region::EnterCritical(_) => b"CRIN",
        Region::LeaveCritical(_) => b"CROUT",
    }
}

// The name of an instruction of this family.
fn task_name(task: Task) -> &'static [u8] {
    match task {
        Task::Spawn { .. } => b"SPAWN",
        Task::TaskEnd => b"TEND",
        Task::WaitBegin => b"TWB",
        Task::WaitEnd => b"TWE",
        Task::Yield => b"YIELD",
        Task::GroupBegin => b"TGB",
        Task::GroupEnd => b"TGE",
    }
}
