//! Who is told how far a search is.

/// Who is told how far a search is.
pub trait Watch {
    /// So many states are stored now, and so many steps were made.
    fn tell(&mut self, states: u64, steps: u64);
}

/// Nobody.
#[derive(Drop)]
pub struct Unwatched;

impl Watch for Unwatched {
    fn tell(&mut self, _states: u64, _steps: u64) {}
}
