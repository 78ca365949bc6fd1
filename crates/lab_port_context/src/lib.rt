//! omplab port: what stands before a piece of a C source, what follows it, and what the whole source has.
//!
//! Rules decide by these three alone, and they see nothing of a piece but its class (lab_port_words).
//!
//! - `context` says what stands before a piece, `ahead` looks at what follows it, and `facts` has what the whole
//!   source has.
#![tactic(auto)]

mod ahead;
mod context;
mod facts;

pub use ahead::{
    Call, Cast, CastEnd, call_size, cast_end, is_close, is_comma, is_library, is_open,
    is_semicolon, is_star, name_ahead, nth_class, nth_text, of_line, prototype_size, run_end,
    size_to, statement_size,
};
pub use context::{
    Context, Line, at_first, context_behind, deeper, is_abort, is_code, is_floating_type, is_main,
    is_stdlib, is_whole_type,
};
pub use facts::{Facts, facts_of, in_sight, is_assert, is_condition, is_type};
