//! omplab port: what a piece of a C source is to the rules: its class, by a table of words; texts that rules write.
//!
//! `class_of` says the class of a piece. Rules look at classes alone, so all names that they know stand in one
//! table, `WORDS`. `text` has what a number, a character or a format of `printf` becomes.
//!
//! - A new word is a row of `WORDS`, and perhaps a variant of `Class`.
#![tactic(auto)]

mod class;
mod table;
mod text;

pub use class::{
    Class, Clause, Form, Format, Hash, Lack, Library, Sign, Storage, TypeWord, Word, is_gap,
    is_word,
};
pub use table::{class_of, classes_of};
pub use text::{push_format, push_line_text, push_number, push_without_suffix};
