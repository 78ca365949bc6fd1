//! Names of the library that are left out (S7), and what to write in their place.

use crate::table::Row;

/// By the name at which S7 stands.
pub(crate) const LIBRARY: [Row; 42] = [
    (
        b"omp_set_num_threads",
        "`num_threads(n)` on each `parallel`",
    ),
    (b"omp_get_max_threads", "write the number"),
    (b"omp_get_num_procs", "write the number"),
    (b"omp_set_dynamic", "leave it out"),
    (
        b"omp_set_nested",
        "leave it out; an inner team has one thread",
    ),
    (
        b"omp_in_parallel",
        "`omp_get_num_threads() > 1`, where no inner `parallel` stands around it",
    ),
    (b"omp_get_wtime", "leave it out, with what it measures"),
    (
        b"omp_init_lock",
        "leave it out; a lock becomes `#pragma omp critical (NAME)`",
    ),
    (
        b"omp_destroy_lock",
        "leave it out; a lock becomes `#pragma omp critical (NAME)`",
    ),
    (
        b"omp_set_lock",
        "`#pragma omp critical (NAME)` around what stands up to the unset",
    ),
    (b"omp_unset_lock", "leave it out; the `critical` ends there"),
    (
        b"omp_test_lock",
        "`#pragma omp critical (NAME)`; a test that does not wait is left out",
    ),
    (
        b"omp_set_nest_lock",
        "`#pragma omp critical (NAME)` around what stands up to the unset",
    ),
    (
        b"omp_unset_nest_lock",
        "leave it out; the `critical` ends there",
    ),
    (b"EXIT_SUCCESS", "write 0"),
    (b"EXIT_FAILURE", "write 1"),
    (
        b"NULL",
        "there are no pointers: use an index, with -1 for none",
    ),
    (b"true", "write 1"),
    (b"false", "write 0"),
    (b"bool", "write `int`, with 1 for true and 0 for false"),
    (b"size_t", "write `int`"),
    (b"INT_MAX", "write 2147483647"),
    (b"INT_MIN", "write -2147483647 - 1"),
    (b"argc", "write a `#define` for each argument"),
    (b"argv", "write a `#define` for each argument"),
    (b"atoi", "write the number, or a `#define`"),
    (b"strtol", "write the number, or a `#define`"),
    (b"malloc", "a global array of the largest length"),
    (b"calloc", "a global array of the largest length"),
    (b"free", "leave it out"),
    (b"exit", "`return 1;` in `main`"),
    (b"abort", "`return 1;` in `main`"),
    (b"assert", "`if (x != 1) printf(\"x = %d\\n\", x);`"),
    (b"abs", "`x < 0 ? -x : x`"),
    (
        b"rand",
        "a generator of its own: `seed = (seed * 75 + 74) % 65537;`",
    ),
    (
        b"srand",
        "a generator of its own: `seed = (seed * 75 + 74) % 65537;`",
    ),
    (b"usleep", "leave it out: you say which thread goes on"),
    (b"sleep", "leave it out: you say which thread goes on"),
    (b"puts", "`printf(..)`, with `\\n` at the end"),
    (b"putchar", "`printf(..)`"),
    (b"fprintf", "`printf(..)`"),
    (b"scanf", "write the number: a program has no input"),
];
