//! All checks, what is said of each, and the calls of the laws.

use crate::driven::{all_are_answered, places_are_those_of_the_journal};
use crate::free_runs::free_runs_are_recorded;
use crate::full::journal_gets_full;
use crate::gates::both_are_inside_at_once;
use crate::gathered::faults_are_told;
use crate::holding::{drives_are_side_by_side, free_runs_are_side_by_side};
use crate::late::answers_may_be_late;
use crate::unbacked::unbacked_answers_are_left_out;
use crate::undos::{counts_follow_an_undo, long_history_is_undone};
use crate::valid::code_is_judged;
use om_seq::AllocResult;
use std::alloc::Global;
use std::sync::Wait;
use std::thread::Threads;

/// Makes all checks, and calls each law of the machine. A line of the text says of each check whether it is right. Its
/// only error is out of memory.
pub fn checked<R: Threads + Wait + Sync>(rt: &R, alloc: Global) -> AllocResult<String> {
    call_laws();
    let mut told = String::new(alloc);
    match add_checks(rt, alloc, &mut told) {
        Ok(()) => Ok(told),
        Err(error) => Err(error),
    }
}

// Adds the lines of all checks.
fn add_checks<R: Threads + Wait + Sync>(
    rt: &R,
    alloc: Global,
    told: &mut String,
) -> AllocResult<()> {
    add_machine_checks(alloc, told)?;
    add_drive_checks(rt, alloc, told)
}

// Adds the lines of the checks of one thread: of code, the machine and the book.
fn add_machine_checks(alloc: Global, told: &mut String) -> AllocResult<()> {
    add_line(told, "code is judged", code_is_judged(alloc)?)?;
    add_line(told, "counts follow an undo", counts_follow_an_undo(alloc)?)?;
    add_line(
        told,
        "a long history is undone",
        long_history_is_undone(alloc)?,
    )?;
    add_line(told, "a journal gets full", journal_gets_full(alloc)?)
}

// Adds the lines of the checks of several threads.
fn add_drive_checks<R: Threads + Wait + Sync>(
    rt: &R,
    alloc: Global,
    told: &mut String,
) -> AllocResult<()> {
    let checks = [
        ("faults of a round are told", faults_are_told(rt, alloc)?),
        (
            "answers without receipts are left out alone",
            unbacked_answers_are_left_out(rt, alloc)?,
        ),
        ("all orders are answered", all_are_answered(rt, alloc)?),
        (
            "the places of answers are those of the journal",
            places_are_those_of_the_journal(rt, alloc)?,
        ),
        (
            "both workers are inside at once",
            both_are_inside_at_once(rt, alloc)?,
        ),
        ("answers may be late", answers_may_be_late(rt, alloc)?),
        (
            "drives are side by side",
            drives_are_side_by_side(rt, alloc)?,
        ),
        (
            "free runs are side by side",
            free_runs_are_side_by_side(rt, alloc)?,
        ),
        ("free runs are recorded", free_runs_are_recorded(rt, alloc)?),
    ];
    for (check, is_right) in checks {
        add_line(told, check, is_right)?;
    }
    Ok(())
}

// Adds the line of a check.
fn add_line(told: &mut String, check: &str, is_right: bool) -> AllocResult<()> {
    let verdict = if is_right { "" } else { " is WRONG" };
    write!(told, "{check}{verdict}\n")
}

/// Calls each law.
pub(crate) fn call_laws() {
    om_team::laws::partition();
    om_team::laws::shares();
    om_task::laws::low_counters();
    om_task::laws::calm_rules();
    om_task::laws::shaped_rules();
    om_undo_history::laws::dependence();
    om_undo_history::laws::commutation();
    om_undo_history::laws::removal();
    om_undo_history::laws::step_then_undo();
    om_undo_history::laws::remaining_steps();
    om_undo_history::laws::exactly_where();
    om_undo_history::laws::serials();
    om_undo_history::laws::equivalence();
    om_undo_history::laws::roll_is_cone();
    om_undo_history::laws::roll_takes_cone();
    om_undo_history::laws::roll_is_undos();
    om_undo_history::laws::least();
    om_undo_history::laws::small_counts();
    om_undo::laws::headline();
    om_undo::laws::steady_rules();
    om_undo::laws::shaped_rules();
    om_undo::laws::small_counts();
    om_undo::laws::one_ready_list();
}
