//! When a search begins anew from level 0.

/// How many conflicts the shortest run has.
const UNIT: u64 = 100;

/// Runs between restarts whose lengths follow the Luby sequence 1, 1, 2, 1, 1, 2, 4, .. in units.
#[derive(Drop)]
pub struct Restarts {
    /// How many conflicts are left in this run.
    left: u64,
    /// The count of runs whose length is one unit, and the length of this run.
    ones: u64,
    length: u64,
}

impl Restarts {
    pub fn new() -> Restarts {
        Restarts {
            left: UNIT,
            ones: 1,
            length: 1,
        }
    }

    /// Counts a conflict, and answers whether the search is to begin anew.
    pub fn count(&mut self) -> bool {
        if self.left > 1 {
            self.left -= 1;
            return false;
        }
        // The length doubles until it is the greatest power of two that divides the count.
        if self.ones & self.ones.wrapping_neg() == self.length {
            self.ones = self.ones.saturating_add(1);
            self.length = 1;
        } else {
            self.length = self.length.saturating_mul(2);
        }
        self.left = self.length.saturating_mul(UNIT);
        true
    }
}
