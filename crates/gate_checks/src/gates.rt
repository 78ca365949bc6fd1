//! Two workers, each of which waits inside its call until the other's has begun.

ghost use Rattle.std.specs.Prelude.{◌≡◌, ◌++◌, ◌∷◌, [], IfOk, vec_len};

use crate::orders::two_lists_of_looks;
use om_book::{CallError, Command, KeptCommand, Receipt, Reply};
use om_drive::{Debuggee, Gate, Order, drive_over};
use om_seq::AllocResult;
use om_undo::StepReply;
use std::alloc::Global;
use std::mem;
use std::sync::Wait;
use std::sync::atomic::{AtomicBool, Ordering};
use std::thread::{Threads, yield_now};

// How often the other's flag is looked at.
const LOOKS: u32 = 1_000_000;

/// A debuggee that raises its flag inside its call, and waits there for the other's.
#[derive(Drop)]
pub(crate) struct Fake<'a> {
    alloc: Global,
    mine: &'a AtomicBool,
    other: &'a AtomicBool,
    // Whether it saw the other's flag in time.
    saw: bool,
    // The one call that it answers.
    made: Option<Receipt>,
}

impl<'a> Fake<'a> {
    /// A debuggee that has made no call.
    pub(crate) fn new(alloc: Global, mine: &'a AtomicBool, other: &'a AtomicBool) -> Fake<'a> {
        Fake {
            alloc,
            mine,
            other,
            saw: false,
            made: None,
        }
    }
}

impl<'a> Debuggee for Fake<'a> {
    ghost use Rattle.om_drive.specs.Calls.{Place};
    ghost use Rattle.std.specs.Prelude.{option_to_list};

    ghost place = { λ f. record { number = 0; workers = 2 } };

    ghost made = { λ f. option_to_list f.made };

    fn workers(&self) -> u8 {
        2
    }

    fn call<R: Wait>(&mut self, _rt: &R, command: Command) -> Result<Reply, CallError> {
        if self.made.is_some() {
            return Err(CallError::Full);
        }
        let Ok(command) = KeptCommand::of(self.alloc, &command) else {
            return Err(CallError::OutOfMemory);
        };
        self.mine.store(true, Ordering::SeqCst);
        self.saw = is_raised(self.other);
        let receipt = Receipt {
            place: 0,
            command,
            reply: Reply::Step(StepReply::Ended),
        };
        drop(mem::replace(&mut self.made, Some(receipt)));
        Ok(Reply::Step(StepReply::Ended))
    }

    fn last_place(&self) -> Option<u64> {
        let receipt = self.made.as_ref()?;
        Some(receipt.place)
    }
}

// Whether the flag is raised in time.
fn is_raised(flag: &AtomicBool) -> bool {
    for _ in 0..LOOKS {
        if flag.load(Ordering::SeqCst) {
            return true;
        }
        yield_now();
    }
    false
}

// A gate that says no until its flag, if it has one, is raised.
#[derive(Drop)]
struct After<'a> {
    flag: Option<&'a AtomicBool>,
}

impl<'a> Gate for After<'a> {
    fn may_answer(&mut self, _order: u64) -> bool {
        match self.flag {
            None => true,
            Some(flag) => {
                let is_raised = flag.load(Ordering::SeqCst);
                if !is_raised {
                    yield_now();
                }
                is_raised
            }
        }
    }
}

/// Whether two workers are driven side by side: none comes late, and each sees the other inside.
pub(crate) fn both_are_inside_at_once<R: Threads + Wait + Sync>(
    rt: &R,
    alloc: Global,
) -> AllocResult<bool> {
    let (zero, one) = (AtomicBool::new(false), AtomicBool::new(false));
    let fakes = fakes(alloc, &zero, &one)?;
    let gates = gates(alloc, &one)?;
    let orders = two_lists_of_looks(alloc, &[0], &[1])?;
    let driven = drive_over(rt, fakes, gates, orders.as_slice());
    let in_time = driven.answers.iter().filter(|answer| !answer.late).count();
    let seen = driven.debuggees.iter().filter(|fake| fake.saw).count();
    Ok(driven.fault.is_none() && in_time == 2 && seen == 2)
}

fn fakes<'a>(alloc: Global, zero: &'a AtomicBool, one: &'a AtomicBool) -> AllocResult<Vec<Fake<'a>>>
    ensures { IfOk result (λ fakes. vec_len fakes ≡ 2) }
{
    let mut fakes = Vec::new(alloc);
    fakes.push(Fake::new(alloc, zero, one))?;
    fakes.push(Fake::new(alloc, one, zero))?;
    Ok(fakes)
}

fn gates(alloc: Global, one: &AtomicBool) -> AllocResult<Vec<After<'_>>>
    ensures { IfOk result (λ gates. vec_len gates ≡ 2) }
{
    let mut gates = Vec::new(alloc);
    gates.push(After { flag: Some(one) })?;
    gates.push(After { flag: None })?;
    Ok(gates)
}
