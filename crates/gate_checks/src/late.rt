//! A gate that never says yes.

ghost use Rattle.std.specs.Prelude.{◌≡◌, IfOk, vec_len};

use crate::gates::Fake;
use crate::orders::looks;
use om_drive::{Gate, Order, drive_over};
use om_seq::AllocResult;
use std::alloc::Global;
use std::sync::Wait;
use std::sync::atomic::{AtomicBool, AtomicU64, Ordering};
use std::thread::Threads;

// How often a gate is asked before its worker goes on.
const MOST_ASKED: u64 = 1_000_000;

// A gate that counts how often it is asked, and always says no.
#[derive(Drop)]
struct Shut<'a> {
    asked: &'a AtomicU64,
}

impl<'a> Gate for Shut<'a> {
    fn may_answer(&mut self, _order: u64) -> bool {
        self.asked.fetch_add(1, Ordering::SeqCst);
        false
    }
}

/// Whether the order behind a gate that always says no is answered in the end, and its answer is late.
pub(crate) fn answers_may_be_late<R: Threads + Wait + Sync>(
    rt: &R,
    alloc: Global,
) -> AllocResult<bool> {
    let (asked, flag) = (AtomicU64::new(0), AtomicBool::new(false));
    let fakes = one_fake(alloc, &flag)?;
    let gates = one_gate(alloc, &asked)?;
    let orders = one_list(alloc)?;
    let driven = drive_over(rt, fakes, gates, orders.as_slice());
    let late = driven
        .answers
        .iter()
        .filter(|answer| answer.late && answer.reply.is_ok())
        .count();
    let is_alone = driven.fault.is_none() && driven.answers.len() == 1;
    Ok(is_alone && late == 1 && asked.load(Ordering::SeqCst) == MOST_ASKED)
}

// A debuggee that waits for nobody: the flag that it looks for is its own.
fn one_fake<'a>(alloc: Global, flag: &'a AtomicBool) -> AllocResult<Vec<Fake<'a>>>
    ensures { IfOk result (λ fakes. vec_len fakes ≡ 1) }
{
    let mut fakes = Vec::new(alloc);
    fakes.push(Fake::new(alloc, flag, flag))?;
    Ok(fakes)
}

fn one_gate(alloc: Global, asked: &AtomicU64) -> AllocResult<Vec<Shut<'_>>>
    ensures { IfOk result (λ gates. vec_len gates ≡ 1) }
{
    let mut gates = Vec::new(alloc);
    gates.push(Shut { asked })?;
    Ok(gates)
}

fn one_list(alloc: Global) -> AllocResult<Vec<Vec<Order>>>
    ensures { IfOk result (λ lists. vec_len lists ≡ 1) }
{
    let mut lists = Vec::new(alloc);
    lists.push(looks(alloc, &[0])?)?;
    Ok(lists)
}
