//! Laws of lowered code: a variable that a region shares is the same one outside, a variable has the cells of its
//! declarator, and each name of critical regions has a lock of its own.
//!
//! It has laws alone: no program runs them, and no crate of a program depends on this one. So a further law of code
//! stands here, where it costs no such crate its proof.
//!
//! - `specs/ShareLaws` says what the slots of a region's body share with the body round it, and `specs/CellLaws`
//!   how many cells a declared variable of a source has.
//! - `proofs/Tables` has what tables by first sight have. `proofs/Captured` goes through the tree: what a region
//!   takes is among the variables of the body round it. `proofs/Shares` draws the first law from the two.
//! - `proofs/Uses` goes through the tree: what it uses is among its variables. `proofs/Wholes` has what a whole tree
//!   says of its regions. `proofs/SharedSlots` draws the second law from them.
//! - `proofs/DeclaredCells` goes through the tree too: the declared variables of a function stand at its places,
//!   and no two places at one byte.
//! - `specs/LockLaws` says that no two locks have one name, and that a `critical` directive has the lock of its
//!   name. `proofs/Locks` shows both.
//! - A new form of a statement adds a case to `Captured`, `Uses`, `Wholes` and `DeclaredCells`.
#![tactic(auto)]

pub mod laws;
