//! What a source defines in one place.

use lab_port_rules::{Meaning, Rule};
use om_seq::Seq;

/// What is left out of a source where it defines names, and these names.
#[derive(Drop)]
pub struct Definition {
    /// The rule by which it is left out.
    pub rule: Rule,
    /// How many pieces after the first one it takes.
    pub size: usize,
    /// What is known behind it.
    pub names: Seq<Meaning>,
}
