//! C that is left out (S2 to S4, S9), and what to write in its place.

use crate::table::Row;

/// By the token at which S3 stands. Of a text it is the quote.
pub(crate) const SYNTAX: [Row; 37] = [
    (
        b"static",
        "leave it out; a variable of a function becomes a global",
    ),
    (b"const", "leave it out"),
    (b"volatile", "leave it out"),
    (b"extern", "leave it out"),
    (b"register", "leave it out"),
    (b"inline", "leave it out"),
    (b"restrict", "leave it out"),
    (b"auto", "leave it out"),
    (
        b"double",
        "write `int`, in smaller units: 0.25 becomes 25, in hundredths",
    ),
    (
        b"float",
        "write `int`, in smaller units: 0.25 becomes 25, in hundredths",
    ),
    (b"unsigned", "write `int`"),
    (b"signed", "write `int`"),
    (b"long", "write `int`"),
    (b"short", "write `int`"),
    (b"_Bool", "write `int`, with 1 for true and 0 for false"),
    (
        b"char",
        "write `int`; arguments of `main` become a `#define`, and it is `int main(void)`",
    ),
    (
        b"struct",
        "one array for each member; a pointer to an element becomes its index",
    ),
    (b"union", "one variable for each member"),
    (
        b"typedef",
        "leave it out, and write `int` for its name; a struct becomes one array for each member",
    ),
    (b"enum", "a `#define` for each name"),
    (b"switch", "a chain of `if`"),
    (b"case", "a chain of `if`"),
    (b"goto", "a variable that the loop looks at"),
    (b"sizeof", "write the number"),
    (
        b"*",
        "there are no pointers: pass an index, and make the array global; an initial value is one number",
    ),
    (
        b"=",
        "an array has no list of initial values: store its elements in `main`; else on its left stands one variable or element",
    ),
    (
        b"[",
        "an array has one dimension, m[8 * i + k], and is no parameter: make it global",
    ),
    (b"]", "write the length of the array"),
    (
        b"{",
        "an initial value has no braces, write `int x = 3;`; the `{` of a construct stands on the next line",
    ),
    (b"}", "a `;` or a statement is missing before it"),
    (b"<", "write `* 8` for `<< 3`"),
    (
        b">",
        "no `->`: one array for each member, `balance[a]` for `a->balance`; `/ 8` for `>> 3`, where the value is not negative",
    ),
    (
        b",",
        "before the first clause no comma stands; else write two statements, or take the second variable into the body",
    ),
    (b":", "leave the label out"),
    (b"\"", "a text stands first in `printf` alone, as one piece"),
    (
        b"#",
        "a `;` is missing before it, or it stands outside of every function",
    ),
    (
        b"int",
        "a `;` is missing before it, or it is a cast, which is left out; a declaration stands in the braces of a construct",
    ),
];

/// By a name that stands at S3 or before it on its line: no word of C, and so read as a variable.
pub(crate) const NAMES: [Row; 11] = [
    (b"size_t", "write `int`"),
    (b"bool", "write `int`, with 1 for true and 0 for false"),
    (b"true", "write 1"),
    (b"false", "write 0"),
    (
        b"argc",
        "write `int main(void)`, and a `#define` for each argument",
    ),
    (
        b"argv",
        "write `int main(void)`, and a `#define` for each argument",
    ),
    (
        b"omp_lock_t",
        "leave it out; a lock becomes `#pragma omp critical (NAME)`",
    ),
    (
        b"omp_nest_lock_t",
        "leave it out; a lock becomes `#pragma omp critical (NAME)`",
    ),
    (b"FILE", "leave it out; a program prints by `printf` alone"),
    (b"fprintf", "write `printf(..)`"),
    (b"puts", "write `printf(..)`, with `\\n` at the end"),
];

/// By the first byte at which S2 stands; of a number it is 0.
pub(crate) const BYTES: [Row; 11] = [
    (
        b".",
        "a number is an `int` in smaller units: 0.25 becomes 25, in hundredths; a member becomes an array, `balance[a]` for `a.balance`",
    ),
    (b"'", "write its number: 10 for '\\n', 97 for 'a'"),
    (
        b"&",
        "no addresses and no bit operators: a global for `&x`, `y % 2` for `y & 1`",
    ),
    (b"|", "no bit operators: a variable for each flag"),
    (
        b"^",
        "no bit operators: `y % 2 ? y - 1 : y + 1` for `y ^ 1`",
    ),
    (b"~", "no bit operators: `-1 - y` for `~y`"),
    (
        b"0",
        "a number is `10`, `010` or `0x1F`, with no letter or point after it",
    ),
    (
        b"\"",
        "a text ends on its line, and has the escapes \\n \\t \\\\ \\\" alone",
    ),
    (b"/", "close the comment"),
    (
        b"\\",
        "take it out: a backslash stands at the end of a line alone",
    ),
    (b"#", "give it a line of its own"),
];

/// By what stands behind the `#` at which S4 stands: the first that begins it.
pub(crate) const HASH_LINES: [Row; 10] = [
    (
        b"include <stdbool.h>",
        "leave it out; `bool` is `int`, `true` is 1, `false` is 0",
    ),
    (b"include <stdio.h>", "nothing may stand after the header"),
    (b"include <omp.h>", "nothing may stand after the header"),
    (
        b"include <",
        "leave it out; only <stdio.h> and <omp.h> may stand",
    ),
    (b"include", "write what the file has"),
    (
        b"define",
        "a define is one decimal number, as `#define N 8`; a macro with parameters becomes a function",
    ),
    (b"undef", "leave it out"),
    (
        b"if",
        "leave it out, with its `#else` part and its `#endif`",
    ),
    (b"el", "leave it out, and write the code that is chosen"),
    (b"endif", "leave it out"),
];

/// By the name at which S9 stands.
pub(crate) const MISUSES: [Row; 2] = [
    (
        b"printf",
        "its result is left out; it takes a text and one value for each %d; write %d for %f, %c, %s and %ld",
    ),
    (b"main", "write `int main(void)`"),
];
