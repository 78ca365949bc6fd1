//! Answers without a code, and the objects on which an undo is refused, in words.

ghost use Rattle.std.specs.Prelude.{◌≡◌, map, option_copied};
ghost use Rattle.lab_help.specs.Tables.{words_of};

use crate::table::{Row, words_of};

const ANSWERS: [Row; 8] = [
    (
        b"ended",
        "the worker has finished, or it is at a fault: `where` tells which",
    ),
    (
        b"full",
        "the session has its 200,000 records: start a new one, and keep the K of `free K` small",
    ),
    (b"nothing to undo", "no step of the worker stands"),
    (b"no steps", "no step stands: the program is at its start"),
    (b"no tasks", "no task can be begun now"),
    (
        b"no step",
        "no step of this number stands: it was taken back, or never made",
    ),
    (b"unset", "nothing was stored in it yet"),
    (b"dead", "its frame has ended"),
];

const STOPS: [Row; 4] = [
    (
        b"watch",
        "the value has changed: the last line of `history` is the step that did it, and `print` has the value",
    ),
    (b"limit", "so many steps were asked for"),
    (b"ended", "no worker has a move, and main has ended"),
    (
        b"stuck",
        "no worker can make a step, and main has not ended: there is a fault, or all wait",
    ),
];

const OBJECTS: [Row; 12] = [
    (b"global", "a global variable"),
    (b"cell", "a variable of a function"),
    (b"control", "what this worker is doing"),
    (
        b"task",
        "the task of this name: one made it, the other began it",
    ),
    (b"children", "how many children of this task are not done"),
    (
        b"pending",
        "how many tasks made before this barrier of the team are not done",
    ),
    (
        b"arrived",
        "to how many barriers this thread of the team has come",
    ),
    (
        b"work",
        "what is given out of this worksharing region of the team",
    ),
    (b"lock", "the lock of this critical"),
    (b"group", "how many tasks of this taskgroup are not done"),
    (b"output", "what was printed"),
    (b"events", "the event records of this worker"),
];

/// What an answer without a code means, as `full`, or a value that is no number, as `unset`; `None` where it
/// speaks for itself.
pub fn answer_words(answer: &[u8]) -> Option<&'static str>
    ensures { option_copied result
        ≡ words_of (map (λ row. (row.0.now, row.1.now)) ANSWERS) answer.now }
{
    words_of(&ANSWERS, answer)
}

/// Why a run stopped, by the word behind the number of its steps, as `stuck`.
pub fn stop_words(stop: &[u8]) -> Option<&'static str>
    ensures { option_copied result
        ≡ words_of (map (λ row. (row.0.now, row.1.now)) STOPS) stop.now }
{
    words_of(&STOPS, stop)
}

/// What kind of object this is, by the word that a refused undo has for it, as `arrived`.
pub fn object_words(kind: &[u8]) -> Option<&'static str>
    ensures { option_copied result
        ≡ words_of (map (λ row. (row.0.now, row.1.now)) OBJECTS) kind.now }
{
    words_of(&OBJECTS, kind)
}
