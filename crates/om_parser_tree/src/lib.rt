//! Text, tokens, trees: the syntax tree: types, grammar, limits, and the forms of `atomic`; puts statements together.
//!
//! `Unit` is a whole source, with `Function`, `Statement` and `Expression` in it (C17 6.5 to 6.9). A tree
//! keeps the span of every token, so its spelling is the very token list. `Statement` is also the type of the
//! items of a block.
//!
//! - The grammar is what a reader must believe: `specs/Tree`, `Spelling`, `Formed`, `Limits`, `AtomicForms`,
//!   `Sizes` (how large a tree is) and `Places` (where a limit is passed).
//! - A declaration has a type parameter for what its variables hold at the start. The head of a function has
//!   one for the names of its parameters. So the type says that a global has its number, and a parameter of a
//!   definition its name.
//! - `atomic` tells which statements have a form that `atomic` allows.
//! - `assembly` puts statements together of parts that are already read, for the recursion of om_parser.
//!   `boxed` puts a value into a box. `specs/Making` says what both promise.
//!
//! Cases: gate_cases, "== parser".
#![tactic(auto, using(crate::proofs::Auto::lemmas), unfolding(crate::proofs::Auto::definitions))]

pub mod assembly;
mod atomic;
mod tree;

pub use atomic::{has_atomic_form, same_expression};
pub use om_pragma::{Name, Number};
pub use tree::{
    Argument, ArrayLength, AssignOperator, BLOCK_LIMIT, BinaryOperator, Block, Condition,
    Declaration, Declarator, Expression, ForHead, ForStart, Function, FunctionHead, Initializer,
    Item, NESTING_LIMIT, Parameter, Parameters, Part, PostfixOperator, PrefixOperator, ResultType,
    STATEMENT_LIMIT, SignedNumber, Statement, TOKEN_LIMIT, Text, Unit,
};
