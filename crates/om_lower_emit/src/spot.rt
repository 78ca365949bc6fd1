//! Where code is written, where a statement stands, and where jumps go.

ghost use Rattle.std.specs.Prelude.{◌≡◌, None, Some};
ghost use Rattle.om_lower_emit.specs.Words.{spot_with};

use om_lexer::Span;
use om_lower_rules::{BodyTables, Numbers};
use om_seq::AllocResult;

/// Where code is written, and for what.
#[derive(Clone, Copy)]
pub struct Here<'a> {
    /// The tables of the body that is written.
    pub tables: &'a BodyTables<'a>,
    /// The place in the source of what is written. Its line is that of the instructions.
    pub at: Span,
}

/// Where a statement stands: the numbers of the next body and of the next list of PICK, and where
/// jumps go.
#[derive(Clone, Copy)]
pub struct Spot {
    pub numbers: Numbers,
    pub jumps: JumpLabels,
}

impl Spot {
    // With these labels for `break` and `continue`.
    fn with(numbers: Numbers, over: Option<usize>, next: Option<usize>) -> Spot
        ensures { result ≡ spot_with numbers over next }
    {
        let jumps = JumpLabels { over, next };
        Spot { numbers, jumps }
    }

    /// Outside of loops.
    pub fn outside(numbers: Numbers) -> Spot
        ensures { result ≡ spot_with numbers None None }
    {
        Spot::with(numbers, None, None)
    }

    /// In a loop.
    pub fn in_loop(numbers: Numbers, over: usize, next: usize) -> Spot
        ensures { result ≡ spot_with numbers (Some over) (Some next) }
    {
        Spot::with(numbers, Some(over), Some(next))
    }

    /// In the body of a worksharing loop, which no `break` leaves.
    pub fn in_iteration(numbers: Numbers, next: usize) -> Spot
        ensures { result ≡ spot_with numbers None (Some next) }
    {
        Spot::with(numbers, None, Some(next))
    }

    /// Behind a statement that ends with these numbers.
    pub fn behind(self, numbers: Numbers) -> Spot
        ensures { result ≡ record { numbers = numbers; jumps = self.jumps } }
    {
        let jumps = self.jumps;
        Spot { numbers, jumps }
    }
}

/// The labels of a loop.
#[derive(Clone, Copy)]
pub struct LoopLabels {
    /// Where it begins again.
    pub again: usize,
    /// Behind it.
    pub over: usize,
}

/// The labels of a loop in which `continue` does not go to its begin.
#[derive(Clone, Copy)]
pub struct TurnLabels {
    /// Where it begins again.
    pub again: usize,
    /// Where `continue` goes.
    pub next: usize,
    /// Behind it.
    pub over: usize,
}

/// The labels that `break` and `continue` go to; outside of a loop there are none.
#[derive(Clone, Copy)]
pub struct JumpLabels {
    pub over: Option<usize>,
    pub next: Option<usize>,
}
