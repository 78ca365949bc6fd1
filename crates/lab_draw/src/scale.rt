//! Where the parts of a picture stand, in points.

ghost use Rattle.std.specs.Prelude.{◌≡◌, ◌-◌, ◌<◌, ◌^◌};
ghost use Rattle.lab_draw.specs.Places.{left_of, middle_of, top_of, bottom_of, leaves_at, arrives_at, label_left, label_base};

use lab_graph::End;

/// How large the boxes of a picture are, and which step stands at the left.
///
/// A step's column is its serial less that of the first step: steps that were taken out keep theirs. A
/// worker's lane is 120 points high.
#[derive(Clone, Copy)]
pub struct Scale {
    /// The serial of the step in the first column.
    pub first: u64,
    /// Whether boxes are marks of 6 by 6 points, 2 apart, in place of 92 by 34 points, 8 apart.
    pub is_small: bool,
}

impl Scale {
    // The column of a step, from 0.
    fn column(self, serial: u64) -> u128
        ensures column { result ≡ serial - self.first }
        ensures fits { result < 2 ^ 64 }
    {
        u128::from(serial.saturating_sub(self.first))
    }

    /// The left edge of a step's box.
    pub(crate) fn left(self, serial: u64) -> u128
        ensures { result ≡ left_of self serial }
    {
        let column = self.column(serial);
        if self.is_small {
            8 * column + 8
        } else {
            100 * column + 8
        }
    }

    /// The middle of a step's box, from the left.
    pub(crate) fn middle(self, serial: u64) -> u128
        ensures { result ≡ middle_of self serial }
    {
        let column = self.column(serial);
        if self.is_small {
            8 * column + 11
        } else {
            100 * column + 54
        }
    }

    /// The left edge of what is written at an arrow's head.
    pub(crate) fn label_left(self, serial: u64) -> u128
        ensures { result ≡ label_left self serial }
    {
        let column = self.column(serial);
        if self.is_small {
            8 * column + 15
        } else {
            100 * column + 58
        }
    }

    /// The upper edge of a box in a worker's lane.
    pub(crate) fn top(self, worker: u8) -> u128
        ensures { result ≡ top_of self worker }
    {
        if self.is_small {
            120 * u128::from(worker) + 57
        } else {
            120 * u128::from(worker) + 43
        }
    }

    /// The lower edge of a box in a worker's lane.
    pub(crate) fn bottom(self, worker: u8) -> u128
        ensures { result ≡ bottom_of self worker }
    {
        if self.is_small {
            120 * u128::from(worker) + 63
        } else {
            120 * u128::from(worker) + 77
        }
    }

    /// How far down an arrow begins.
    pub(crate) fn leaves_at(self, from: End, to: End) -> u128
        ensures { result ≡ leaves_at self from to }
    {
        if from.worker < to.worker {
            self.bottom(from.worker)
        } else {
            self.top(from.worker)
        }
    }

    /// How far down its head is.
    pub(crate) fn arrives_at(self, from: End, to: End) -> u128
        ensures { result ≡ arrives_at self from to }
    {
        if from.worker < to.worker {
            self.top(to.worker)
        } else {
            self.bottom(to.worker)
        }
    }
}

/// How far down the base of what is written at an arrow's head is. Arrows into one box have their words
/// in rows of their own.
pub(crate) fn label_base(from: End, to: End) -> u128
    ensures { result ≡ label_base from to }
{
    if from.worker < to.worker {
        let row = u128::from((to.worker - from.worker - 1) % 3);
        120 * u128::from(to.worker) + 37 - 12 * row
    } else {
        let row = u128::from((from.worker - to.worker).saturating_sub(1) % 3);
        120 * u128::from(to.worker) + 90 + 12 * row
    }
}
