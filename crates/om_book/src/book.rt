//! The book: a machine beside the journal of all calls that it answered.

ghost use Rattle.std.specs.Prelude.{◌≡◌, ◌<◌, ◌≤◌, ◌^◌, ◌++◌, ◌∷◌, [], ◌↔◌, IfOk, IfErr, IfSome, OnOk, OnErr, drop, length, vec_capacity, Some, true};
ghost use Rattle.om_book_journal.specs.Runs.{IsInRange, IsReply, after, asks_for_list, fresh, reply_to, step_command};
ghost use Rattle.om_book_journal.specs.Journals.{IsLegal, IsSound, done_in, last_asked, last_told};
ghost use Rattle.om_book_journal.specs.Records.{reply_in};
ghost use Rattle.om_book.specs.Books.{is_full, last_reply, machine_of, history_left, records_of, with_call, with_record};
ghost use Rattle.om_book.specs.Books.{AddsCall, AddsRecord, AddsStep, AddsUndo};
ghost use Rattle.om_undo.specs.Machines.{MachineView, step_reply};

use om_book_journal::replies::{done, done_thrice, let_go, undo};
use om_book_journal::{Asked, Command, JournalRecord, Reply, ReplyIn, done_in};
use om_code::Program;
use om_seq::AllocResult;
use om_undo::{Machine, PlannedStep, StepReply};
use std::alloc::{AllocError, Global};
use std::marker::Model;
use std::snapshot::Snapshot;

/// How many records there are at most.
pub const MAX_RECORDS: u64 = 200_000;

/// Why a call was not made. It has then changed nothing.
#[derive(Clone, Copy)]
pub enum CallError {
    /// There are 200,000 records.
    Full,
    /// There is no memory for the call or its record.
    OutOfMemory,
}

/// A machine beside its journal.
///
/// Contracts see the machine at its opening and the journal. The machine where it stands is no part
/// of what they see: it is always the one that the commands of the journal, in order, leave
/// (`machine_of`).
pub struct Book {
    machine: Machine,
    start: Snapshot<Machine>,
    journal: Vec<JournalRecord>,
}

// By hand: other crates call this, and do not prove anew how each part is dropped.
impl Drop for Book {
    fn drop(self) {
        let Book {
            machine,
            start: _,
            journal,
        } = self;
        drop(machine);
        drop(journal);
    }
}

impl Model for Book {
    ghost use Rattle.om_book.specs.Books.{BookView};
    ghost use Rattle.om_book_journal.specs.Journals.{IsSound};

    ghost Value = { BookView };

    ghost view = { λ b. record { start = b.start.value; journal = b.journal.items } };

    ghost invariant = { λ b. IsSound b.machine b.start.value b.journal.items };
}

impl Book {
    /// A book without records, over the machine at the start of a program, with 1 to 32 workers.
    /// Its only error is out of memory.
    pub fn new(alloc: Global, program: Program, workers: u8) -> AllocResult<Book>
        requires at_least_one { 1 ≤ workers }
        requires at_most_32 { workers ≤ 32 }
        ensures { IfOk result
            (λ b. b ≡ record { start = fresh program workers; journal = [] }) }
    {
        let machine = Machine::new(alloc, program, workers)?;
        let start = Snapshot::of(&machine);
        Ok(Book {
            machine,
            start,
            journal: Vec::new(alloc),
        })
    }

    /// The machine that the commands of the journal leave. Its history is the run of the journal's
    /// steps, undos and rolls, the refused ones among them.
    pub fn machine(&self) -> &Machine
        ensures left { result.now ≡ machine_of self.now }
        ensures run { result.now.history ≡ history_left self.now }
        ensures program { result.now.program ≡ self.now.start.program }
        ensures workers { result.now.workers ≡ self.now.start.workers }
    {
        &self.machine
    }

    /// The calls that were answered, in their order. Each reply is the one that a machine of one
    /// thread gives there.
    pub fn journal(&self) -> &[JournalRecord]
        ensures records { result.now ≡ self.now.journal }
        ensures legal { IsLegal self.now.start self.now.journal }
        ensures most { records_of self.now ≤ 200000 }
    {
        self.journal.as_slice()
    }

    /// How many calls were recorded.
    pub fn records(&self) -> u64
        ensures { result ≡ records_of self.now }
    {
        self.journal.len() as u64
    }

    /// Whether there is no room for one more record.
    pub fn is_full(&self) -> bool
        ensures { result ≡ is_full self.now }
    {
        self.records() >= MAX_RECORDS
    }

    /// How many steps were made by the calls of the journal that stand behind its first `calls`.
    pub fn steps_behind(&self, calls: usize) -> u64
        requires { calls ≤ length self.now.journal }
        ensures { result ≡ done_in (drop calls self.now.journal) }
    {
        done_in(&self.journal.as_slice()[calls..])
    }

    /// The reply to the last call; there has to be one.
    pub fn last_reply(&self) -> ReplyIn<'_>
        requires { 0 < records_of self.now }
        ensures { Some (reply_in result) ≡ last_reply self.now }
    {
        match self.journal.as_slice().last() {
            Some(answered) => answered.reply(),
            None => unreachable!(),
        }
    }

    // There is room for one more record, or the error is `Full`.
    fn has_room(&self) -> Result<(), CallError>
        ensures room { OnOk result (records_of self.now < 200000) }
        ensures full { IfErr result (λ e. (e ≡ CallError.Full) × (200000 ≤ records_of self.now)) }
    {
        if self.is_full() {
            return Err(CallError::Full);
        }
        Ok(())
    }

    /// Does what a seat's command asks, and adds its record to the journal, where its reply can be read
    /// (`last_reply`).
    ///
    /// Errors are `Full`, exactly where there are 200,000 records, and out of memory. They
    /// change nothing.
    pub fn call(&mut self, alloc: Global, seat: u8, command: &Command) -> Result<(), CallError>
        requires { IsInRange self.old.start.workers command.now }
        ensures recorded { OnOk result (self.new ≡ with_call self.old seat command.now) }
        ensures unchanged_on_error { OnErr result (self.new ≡ self.old) }
        ensures full { IfErr result (λ e. e ≡ CallError.Full ↔ 200000 ≤ records_of self.old) }
        ensures room { OnOk result (records_of self.old < 200000) }
    {
        self.has_room()?;
        match append_call(alloc, &mut self.machine, &mut self.journal, seat, command) {
            Ok(()) => Ok(()),
            Err(AllocError) => Err(CallError::OutOfMemory),
        }
    }

    /// Takes a step that was planned at its machine, and adds the record of that call of a seat to the
    /// journal: as `call` of the step's command, which plans it first.
    ///
    /// Errors are `Full`, exactly where there are 200,000 records, and out of memory. They
    /// change nothing.
    pub fn take(
        &mut self,
        alloc: Global,
        seat: u8,
        step: PlannedStep,
    ) -> Result<StepReply, CallError>
        requires { step.machine ≡ machine_of self.old }
        ensures reply { IfOk result (λ x. x ≡ step_reply (machine_of self.old) step.label) }
        ensures recorded { OnOk result
            (self.new ≡ with_call self.old seat (step_command step.label)) }
        ensures unchanged_on_error { OnErr result (self.new ≡ self.old) }
        ensures full { IfErr result (λ e. e ≡ CallError.Full ↔ 200000 ≤ records_of self.old) }
        ensures room { OnOk result (records_of self.old < 200000) }
    {
        if let Err(error) = self.has_room() {
            let_go(step);
            return Err(error);
        }
        match append_step(alloc, &mut self.machine, &mut self.journal, seat, step) {
            Ok(reply) => Ok(reply),
            Err(AllocError) => Err(CallError::OutOfMemory),
        }
    }

    /// Takes a worker's last step back, and adds the record of that call of a seat to the journal, where its
    /// reply can be read (`last_reply`): as `call` of the undo's command.
    ///
    /// Errors are `Full`, exactly where there are 200,000 records, and out of memory. They
    /// change nothing.
    pub fn undo(&mut self, alloc: Global, seat: u8, worker: u8) -> Result<(), CallError>
        requires { worker < self.old.start.workers }
        ensures recorded { OnOk result (self.new ≡ with_call self.old seat (Command.Undo worker)) }
        ensures unchanged_on_error { OnErr result (self.new ≡ self.old) }
        ensures full { IfErr result (λ e. e ≡ CallError.Full ↔ 200000 ≤ records_of self.old) }
        ensures room { OnOk result (records_of self.old < 200000) }
    {
        self.has_room()?;
        match append_undo(alloc, &mut self.machine, &mut self.journal, seat, worker) {
            Ok(()) => Ok(()),
            Err(AllocError) => Err(CallError::OutOfMemory),
        }
    }

    /// Does what a seat's command asks, and adds its record to the journal. gate_checks alone calls it.
    ///
    /// Errors are `Full`, exactly where there are 200,000 records, and out of memory. They
    /// change nothing.
    pub fn apply(&mut self, alloc: Global, seat: u8, command: Command) -> Result<Reply, CallError>
        requires { IsInRange self.old.start.workers command }
        ensures reply { IfOk result (λ x. IsReply (machine_of self.old) command x) }
        ensures recorded { IfOk result (λ x. self.new ≡ with_record self.old seat command x) }
        ensures unchanged_on_error { OnErr result (self.new ≡ self.old) }
        ensures full { IfErr result (λ e. e ≡ CallError.Full ↔ 200000 ≤ records_of self.old) }
        ensures room { OnOk result (records_of self.old < 200000) }
    {
        let (reply, copy) = self.apply_with_copy(alloc, seat, command)?;
        drop(copy);
        Ok(reply)
    }

    /// As `apply`, and answers its reply twice.
    pub fn apply_with_copy(
        &mut self,
        alloc: Global,
        seat: u8,
        command: Command,
    ) -> Result<(Reply, Reply), CallError>
        requires { IsInRange self.old.start.workers command }
        ensures reply { IfOk result (λ x. IsReply (machine_of self.old) command x.0) }
        ensures copy { IfOk result (λ x. x.1 ≡ x.0) }
        ensures recorded { IfOk result (λ x. self.new ≡ with_record self.old seat command x.0) }
        ensures unchanged_on_error { OnErr result (self.new ≡ self.old) }
        ensures full { IfErr result (λ e. e ≡ CallError.Full ↔ 200000 ≤ records_of self.old) }
        ensures room { OnOk result (records_of self.old < 200000) }
    {
        self.has_room()?;
        match append_thrice(alloc, &mut self.machine, &mut self.journal, seat, &command) {
            Ok(replies) => Ok(replies),
            Err(AllocError) => Err(CallError::OutOfMemory),
        }
    }
}

// The reply to the last call, where that was this very question for a list: no call has changed anything since.
fn told_again<'a>(journal: &'a [JournalRecord], command: &Command) -> Option<&'a Reply>
    ensures list { IfSome result (λ x. asks_for_list command.now ≡ true) }
    ensures asked { IfSome result (λ x. Some command.now ≡ last_asked journal.now) }
    ensures told { IfSome result (λ x. Some x.now ≡ last_told journal.now) }
{
    match journal.last() {
        Some(answered) => answered.told_again(command),
        None => None,
    }
}

// That reply once more, which shares the list of the record. Its only error is out of memory.
fn again(
    alloc: Global,
    machine: &Machine,
    journal: &[JournalRecord],
    command: &Command,
) -> AllocResult<Option<Reply>>
    requires { (start : MachineView) × IsSound machine.now start journal.now }
    ensures reply { IfOk result (λ told. IfSome told (λ x. IsReply machine.now command.now x)) }
    ensures same { IfOk result (λ told. IfSome told
        (λ x. machine.now ≡ after machine.now command.now)) }
{
    let Some(told) = told_again(journal, command) else {
        return Ok(None);
    };
    let reply = told.copy(alloc)?;
    Ok(Some(reply))
}

// Does what a command asks. When out of memory, nothing changes.
fn answered(
    alloc: Global,
    machine: &mut Machine,
    journal: &[JournalRecord],
    command: &Command,
) -> AllocResult<Reply>
    requires in_range { IsInRange machine.old.workers command.now }
    requires few_made { machine.old.history.made < 2 ^ 63 }
    requires sound { (start : MachineView) × IsSound machine.old start journal.now }
    ensures reply { IfOk result (λ x. IsReply machine.old command.now x) }
    ensures after { OnOk result (machine.new ≡ after machine.old command.now) }
    ensures unchanged_on_error { OnErr result (machine.new ≡ machine.old) }
{
    match again(alloc, machine, journal, command)? {
        Some(reply) => Ok(reply),
        None => done(alloc, machine, command),
    }
}

// Does what a command asks, and adds its record. When out of memory, nothing changes.
fn append_call(
    alloc: Global,
    machine: &mut Machine,
    journal: &mut Vec<JournalRecord>,
    seat: u8,
    command: &Command,
) -> AllocResult<()>
    requires in_range { IsInRange machine.old.workers command.now }
    requires few_made { machine.old.history.made < 2 ^ 63 }
    requires sound { (start : MachineView) × IsSound machine.old start journal.old.items }
    ensures machine { OnOk result (machine.new ≡ after machine.old command.now) }
    ensures journal { OnOk result (AddsCall machine.old seat command.now journal.old journal.new) }
    ensures unchanged_machine { OnErr result (machine.new ≡ machine.old) }
    ensures unchanged_journal { OnErr result (journal.new.items ≡ journal.old.items) }
{
    journal.reserve(1)?;
    let asked = Asked::of(alloc, command)?;
    let reply = answered(alloc, machine, journal.as_slice(), command)?;
    journal.push_reserved(JournalRecord::of(seat, asked, reply));
    Ok(())
}

// The command of a planned step, to be kept, with room for its record. Its only error is out of memory.
fn prepared(
    alloc: Global,
    journal: &mut Vec<JournalRecord>,
    step: &PlannedStep,
) -> AllocResult<Asked>
    ensures command { IfOk result (λ asked. asked ≡ step_command step.now.label) }
    ensures room { OnOk result (length journal.new.items < vec_capacity journal.new) }
    ensures unchanged { journal.new.items ≡ journal.old.items }
{
    journal.reserve(1)?;
    Asked::of_step(alloc, step.worker(), &step.choice())
}

// Takes a planned step, and adds its record. When out of memory, nothing changes.
fn append_step(
    alloc: Global,
    machine: &mut Machine,
    journal: &mut Vec<JournalRecord>,
    seat: u8,
    step: PlannedStep,
) -> AllocResult<StepReply>
    requires planned { step.machine ≡ machine.old }
    requires few_made { machine.old.history.made < 2 ^ 63 }
    ensures reply { IfOk result (λ x. x ≡ step_reply machine.old step.label) }
    ensures machine { OnOk result (machine.new ≡ after machine.old (step_command step.label)) }
    ensures journal { OnOk result (AddsStep machine.old seat step.label journal.old journal.new) }
    ensures unchanged_machine { OnErr result (machine.new ≡ machine.old) }
    ensures unchanged_journal { OnErr result (journal.new.items ≡ journal.old.items) }
{
    let Ok(asked) = prepared(alloc, journal, &step) else {
        let_go(step);
        return Err(AllocError);
    };
    let reply = machine.take(alloc, step)?;
    journal.push_reserved(JournalRecord::of_step(seat, asked, reply));
    Ok(reply)
}

// Takes a worker's last step back, and adds the record of the undo. When out of memory, nothing changes.
fn append_undo(
    alloc: Global,
    machine: &mut Machine,
    journal: &mut Vec<JournalRecord>,
    seat: u8,
    worker: u8,
) -> AllocResult<()>
    requires in_range { worker < machine.old.workers }
    ensures machine { OnOk result (machine.new ≡ after machine.old (Command.Undo worker)) }
    ensures journal { OnOk result (AddsUndo machine.old seat worker journal.old journal.new) }
    ensures unchanged_machine { OnErr result (machine.new ≡ machine.old) }
    ensures unchanged_journal { OnErr result (journal.new.items ≡ journal.old.items) }
{
    journal.reserve(1)?;
    let reply = undo(alloc, machine, worker)?;
    journal.push_reserved(JournalRecord::of_undo(seat, worker, reply));
    Ok(())
}

// Does what a command asks, and adds its record; the reply comes twice. When out of memory, nothing
// changes.
fn append_thrice(
    alloc: Global,
    machine: &mut Machine,
    journal: &mut Vec<JournalRecord>,
    seat: u8,
    command: &Command,
) -> AllocResult<(Reply, Reply)>
    requires in_range { IsInRange machine.old.workers command.now }
    requires few_made { machine.old.history.made < 2 ^ 63 }
    ensures reply { IfOk result (λ x. IsReply machine.old command.now x.0) }
    ensures copy { IfOk result (λ x. x.1 ≡ x.0) }
    ensures machine { OnOk result (machine.new ≡ after machine.old command.now) }
    ensures journal { IfOk result (λ x. AddsRecord seat command.now x.0 journal.old journal.new) }
    ensures unchanged_machine { OnErr result (machine.new ≡ machine.old) }
    ensures unchanged_journal { OnErr result (journal.new.items ≡ journal.old.items) }
{
    journal.reserve(1)?;
    let asked = Asked::of(alloc, command)?;
    let replies = done_thrice(alloc, machine, command)?;
    journal.push_reserved(JournalRecord::of(seat, asked, replies.kept));
    Ok((replies.answer, replies.receipt))
}
