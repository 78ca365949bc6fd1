//! OpenMP that is left out (S5, S6, S12), and what to write in its place.

use crate::table::Row;

/// By the word at which S5 or S6 stands.
pub(crate) const WORDS: [Row; 41] = [
    (
        b"depend",
        "put a `taskwait` before the task that needs the result, or a `taskgroup` around those before",
    ),
    (
        b"if",
        "`num_threads(n > 8 ? 4 : 1)` on a `parallel`; of a task an `if` around it, with its statement again after `else`",
    ),
    (
        b"schedule",
        "of `for` alone: `static` or `dynamic`, with a chunk that is a number: write `dynamic` for `guided`",
    ),
    (
        b"collapse",
        "make one loop of the two: `i / 8` and `i % 8` for the two variables",
    ),
    (
        b"lastprivate",
        "the last iteration stores into a shared variable: `if (i == 7) x = v;`",
    ),
    (
        b"ordered",
        "keep the results in an array, and print them after the loop",
    ),
    (b"cancel", "a variable that the other iterations look at"),
    (b"cancellation", "leave it out"),
    (b"simd", "leave it out"),
    (
        b"target",
        "leave it out; the code runs on the threads of the host",
    ),
    (b"teams", "leave it out"),
    (b"distribute", "leave it out"),
    (b"loop", "write `for`"),
    (b"taskloop", "a loop around a `task`, in a `taskgroup`"),
    (b"threadprivate", "an array with an element for each thread"),
    (b"copyin", "write `firstprivate`"),
    (
        b"copyprivate",
        "store into a shared variable in the `single`, and read it after the construct",
    ),
    (b"proc_bind", "leave it out"),
    (b"untied", "leave it out"),
    (b"mergeable", "leave it out"),
    (b"priority", "leave it out; `start` chooses the task"),
    (b"final", "leave it out"),
    (b"linear", "leave it out"),
    (b"aligned", "leave it out"),
    (b"hint", "leave it out"),
    (b"capture", "write `critical` for `atomic`"),
    (b"compare", "write `critical` for `atomic`"),
    (b"acquire", "leave it out: all are in one order"),
    (b"release", "leave it out: all are in one order"),
    (b"acq_rel", "leave it out: all are in one order"),
    (
        b"master",
        "`#pragma omp parallel`, and then `#pragma omp master`",
    ),
    (
        b"masked",
        "`#pragma omp parallel`, and then `#pragma omp masked`",
    ),
    (b"in_reduction", "a sum of your own, under `critical`"),
    (b"task_reduction", "a sum of your own, under `critical`"),
    (
        b"reduction",
        "of `parallel`, `for` and `sections`: `+`, `*`, `max` or `min`, and no part of an array; `+` stands for `-`",
    ),
    (
        b"default",
        "of `parallel` and `task`: `shared` or `none`; for `private` list the variables in `private`",
    ),
    (b"nowait", "leave it out: this construct has its barrier"),
    (
        b"atomic",
        "`x += e;` without `x` in `e`; `x = e;` is `atomic write`, `v = x;` is `atomic read`; else `critical`",
    ),
    (
        b"num_threads",
        "of `parallel` alone: once, with an expression in parentheses",
    ),
    (b"declare", "leave it out"),
    (
        b"shared",
        "of `parallel` and `task`: leave it out elsewhere",
    ),
];

/// By the word at which S12 stands.
pub(crate) const LOOPS: [Row; 2] = [
    (
        b"for",
        "compare from the left by < <= > >=, and step by a constant: `i++`, `i += 2`",
    ),
    (b"{", "the loop has to follow the directive directly"),
];

/// By the word at which S14 stands.
pub(crate) const CONSTRUCTS: [Row; 7] = [
    (
        b"break",
        "outside of a loop take it out; in a `for` directive let the other iterations do nothing, by a variable that they look at",
    ),
    (
        b"continue",
        "a loop has to stand around it, in the construct",
    ),
    (b"return", "set a variable, and return after the construct"),
    (b"barrier", IN_ANOTHER),
    (b"for", IN_ANOTHER),
    (b"sections", IN_ANOTHER),
    (b"single", IN_ANOTHER),
];

// Of worksharing and a barrier in a construct that they may not stand in (OpenMP 5.2, 17.1).
const IN_ANOTHER: &str =
    "no worksharing, masked, critical or task may stand around it without a parallel between: move it out";
