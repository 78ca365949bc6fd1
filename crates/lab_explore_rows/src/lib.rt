//! omplab explore: the row of a state: numbers that are equal where the states are, and nowhere else.
//!
//! A row has an entry for each object that is known, in the order in which these became known. An entry is 0 where the
//! object holds what it holds at the start; else it is one above the number that was given to the value. An object
//! that is not known holds what it holds at the start, and needs no entry. So two states are the same exactly where
//! their rows are, but for zeros at the end of a row.
//!
//! - `Tables` gives numbers to objects and to values, and finds the entry of a value.
//! - `WordTable` gives numbers to lists of words: two lists have one number only where they are equal.
//! - `Row` is a row, whose entries are changed one by one. `Row::cut` leaves the zeros at its end out.
//! - `specs/Rows` says which row a state has, and `laws` that it tells the state apart from all others.
#![tactic(auto)]

pub mod laws;
mod row;
mod tables;
mod word_table;

pub use row::Row;
pub use tables::Tables;
pub use word_table::WordTable;
