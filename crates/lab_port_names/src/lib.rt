//! omplab port: the names of a C source that stand for a text, where they are defined, and where they are used.
//!
//! `name_marks` says of each piece of a source whether it belongs to the definition of a macro, of an enumeration
//! or of a name for a type, or is such a name and is written out. The rules of lab_port_rules apply to the text
//! behind that.
//!
//! - `macros` reads a `#define`, `enumeration` and `constant` an `enum`, `type_name` a `typedef`; `defined` has
//!   all three. `uses` goes through a source. `names` has what stands for a name.
#![tactic(auto)]

mod constant;
mod defined;
mod definition;
mod enumeration;
mod macros;
mod names;
mod sights;
mod type_name;
mod uses;

pub use macros::definition_in;
pub use names::meaning_of;
pub use uses::{Named, has_condition, name_marks};
