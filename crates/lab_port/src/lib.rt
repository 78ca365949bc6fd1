//! omplab port: wider C into the accepted subset: the text with its changes, and the tokens that have no form.
//!
//! `port` answers what a source becomes, in stages: conditions are decided (lab_port_conditions), calls of macros with
//! parameters are written out (lab_port_calls), then names (lab_port_names), a program gets no arguments
//! (lab_port_arguments), lengths of arrays become numbers and two dimensions one (lab_port_arrays), lists of values become
//! stores (lab_port_lists), questions for the number of elements become numbers (lab_port_sizes), statements that choose a
//! text become one for each text (lab_port_prints), and all other rules apply (lab_port_rules). Each byte that no change
//! covers stays. Line feeds all stay, so each token that no change covers stays on its line. `change_list` has a line for
//! each change and each warning, and `refusal_list` says which tokens have no form.
//!
//! - lab_port_tokens cuts a text into pieces, lab_port_words says what each is. `stage` says what a stage finds in
//!   a text, `text` what a rule writes, `written` the text with it, and `ported` joins all. `tally` counts.
#![tactic(auto)]

mod list;
mod place;
mod ported;
mod stage;
mod tally;
mod text;
mod words;
mod written;

pub use lab_port_rules::Rule;
pub use lab_port_words::Lack;
pub use list::{change_list, refusal_list};
pub use place::line_of;
pub use ported::{Change, Ported, Refusal, Step, port};
pub use stage::Stage;
pub use tally::{change_count, warning_count};
pub use words::{Kind, lack_help, lack_words, name_of, warning_of};
