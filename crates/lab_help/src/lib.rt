//! omplab: tables of words: what each code means, and what to write in place of C or OpenMP that is left out.
//!
//! - `refusal_words`, `blocked_words`, `fault_words`, `command_words` and `answer_words` answer the words for
//!   codes and answers, one line each. `code_words` reads a code as answers write it.
//! - `left_out`, `library` and `openmp` say what to write in place of what is left out, and `help` which of
//!   them a refused token asks for. In a `table` the first row of a name answers.
#![tactic(auto)]

mod answer;
mod code;
mod help;
mod left_out;
mod library;
mod number;
mod openmp;
mod table;

pub use answer::{answer_words, object_words, stop_words};
pub use code::{blocked_words, command_words, fault_words, refusal_words};
pub use help::{help_for, is_left_out};
pub use number::code_words;
