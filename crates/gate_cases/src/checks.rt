//! All checks, what is said of each, and the calls of the laws. The check of what code knows of its source
//! stands here too.

use crate::books::{book_has_a_free_run, full_book_has_two_steps};
use crate::ends::{ends_may_fail, source_may_be_handed_in};
use crate::free_tasks::free_runs_end_tasks;
use om_code::Program;
use om_frontend::program_of;
use om_lexer::FaultCode;
use om_lower::{Var, global_named, line_of, variable_at};
use om_seq::AllocResult;
use std::alloc::{AllocError, Global};
use std::sync::Wait;
use std::thread::Threads;

/// Says of each check whether it is right.
pub(crate) fn add_checks<R: Threads + Wait + Sync>(
    rt: &R,
    alloc: Global,
    told: &mut String,
) -> AllocResult<()> {
    let checks = [
        ("free runs end tasks", free_runs_end_tasks(rt, alloc)?),
        (
            "a full book has two steps",
            full_book_has_two_steps(rt, alloc)?,
        ),
        ("a book has a free run", book_has_a_free_run(rt, alloc)?),
        (
            "lines and names of code are found",
            lines_and_names_are_found(alloc)?,
        ),
        ("reads and writes may fail", ends_may_fail(rt, alloc)),
        (
            "a source may be handed in",
            source_may_be_handed_in(rt, alloc),
        ),
    ];
    for (check, is_right) in checks {
        let verdict = if is_right { "" } else { " is WRONG" };
        write!(told, "{check}{verdict}\n")?;
    }
    Ok(())
}

/// Calls each law.
pub(crate) fn call_laws() {
    om_lexer::one_reading();
    om_lexer::tokens_in_order();
    om_lexer::tokens_apart();
    om_pragma::one_directive();
    om_pragma::one_fault();
    om_pragma::one_answer();
    om_pragma::first_value();
    om_parser::one_tree();
    om_parser::accepted_units();
    om_scope_rules::laws::numbers_name_globals();
    om_scope_rules::laws::unbroken_trees_resolve();
    om_scope_rules::laws::unbroken_expressions_are_whole();
    om_scope_rules::laws::unbroken_statements_are_whole();
    om_lower::laws::one_limit();
    om_frontend::laws::one_verdict();
    om_shell::laws::one_script();
}

// Line 5 becomes `CONST 1` and `STORE x`, and line 6 `FIN 0`.
const SIX_LINES: &str = "int w[2],\nx;\n\nint main(void) {\nx = 1;\n}\n";

/// Whether the lines of instructions and the numbers of globals are found, and no others.
pub(crate) fn lines_and_names_are_found(alloc: Global) -> AllocResult<bool> {
    match program_of(alloc, SIX_LINES.as_bytes()) {
        Ok(program) => Ok(has_lines(&program) && has_names(&program) && has_meanings(&program)),
        Err(fault) if fault.code == FaultCode::Memory => Err(AllocError),
        Err(_) => Ok(false),
    }
}

// Whether each instruction has its line, and what is none has line 0.
fn has_lines(program: &Program) -> bool {
    let lines = [
        line_of(program, 0, 0),
        line_of(program, 0, 1),
        line_of(program, 0, 2),
        line_of(program, 0, 3),
        line_of(program, 1, 0),
    ];
    lines == [5, 5, 6, 0, 0]
}

// Whether each global variable has its number, and no other name has one.
fn has_names(program: &Program) -> bool {
    let numbers = [
        global_named(program, b"w"),
        global_named(program, b"x"),
        global_named(program, b"main"),
    ];
    numbers == [Some(0), Some(1), None]
}

// Whether a name means the global variable of that name at an instruction of `main`, and no other name means one.
fn has_meanings(program: &Program) -> bool {
    let meant = [
        variable_at(program, 0, 0, b"x"),
        variable_at(program, 0, 0, b"main"),
    ];
    meant == [Some(Var::Global(1)), None]
}
