//! The tables of a program, and the numbers of bodies and of lists of PICK.

ghost use Rattle.std.specs.Prelude.{◌≡◌, ◌<◌};
ghost use Rattle.om_lower_rules.specs.Numbering.{numbers_of};
ghost use Rattle.om_lower_rules.specs.Bodies as bodies;

use crate::extents::Extents;
use crate::texts::Texts;
use om_scope_tree::AtomicAccess;
use std::collections::BTreeMap;

/// The numbers that the next body, and the next list of PICK, get.
#[derive(Clone, Copy)]
pub struct Numbers {
    pub bodies: u32,
    pub picks: u32,
}

impl Numbers {
    /// Those at the begin of a program.
    pub fn first() -> Numbers
        ensures { numbers_of result ≡ bodies.first_numbers }
    {
        Numbers {
            bodies: 0,
            picks: 0,
        }
    }

    /// Behind one more body.
    pub fn next_body(self) -> Numbers
        requires { self.bodies < 4294967295 }
        ensures { numbers_of result ≡ bodies.next_body (numbers_of self) }
    {
        Numbers {
            bodies: self.bodies + 1,
            picks: self.picks,
        }
    }

    /// Behind one more list of PICK.
    pub fn next_pick(self) -> Numbers
        requires { self.picks < 4294967295 }
        ensures { numbers_of result ≡ bodies.next_pick (numbers_of self) }
    {
        Numbers {
            bodies: self.bodies,
            picks: self.picks + 1,
        }
    }
}

/// The tables of a program, by which its code names formats, locks and bodies.
#[derive(Drop)]
pub struct Tables {
    /// The formats of `printf`, by their numbers.
    pub formats: Texts,
    /// The names of critical regions, by their numbers; the unnamed one has no bytes.
    pub locks: Texts,
    /// What the `atomic read` or `atomic write` of a line does.
    pub atomics: BTreeMap<u32, AtomicAccess>,
    /// How many cells the variables of each function have.
    pub extents: Vec<Extents>,
    /// The number of the body of each function.
    pub bodies: Vec<u32>,
    /// The numbers behind all functions.
    pub behind: Numbers,
    /// The numbers behind each body, by its number.
    pub ends: Vec<Numbers>,
}
