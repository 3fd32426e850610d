// When to begin anew.

/// After how many conflicts a search begins anew first.
const FIRST: u64 = 100;

/// Counts conflicts, and tells when to begin anew: after 100 times 1, 1, 2, 1, 1, 2, 4, .. conflicts, Luby's sequence.
#[derive(Drop)]
pub struct Restarts {
    left: u64,
    index: u64,
    times: u64,
}

impl Restarts {
    /// No conflicts.
    pub(crate) fn new() -> Restarts {
        Restarts {
            left: FIRST,
            index: 1,
            times: 1,
        }
    }

    /// The next number of the sequence.
    fn step(&mut self) {
        let lowest = self.index & (!self.index).wrapping_add(1);
        if lowest == self.times {
            self.index = self.index.wrapping_add(1);
            self.times = 1;
        } else {
            self.times = self.times.wrapping_mul(2);
        }
        self.left = self.times.wrapping_mul(FIRST);
    }

    /// Counts a conflict. Says whether to begin anew.
    pub(crate) fn is_due(&mut self) -> bool {
        self.left = self.left.wrapping_sub(1);
        if self.left == 0 {
            self.step();
            return true;
        }
        false
    }
}
