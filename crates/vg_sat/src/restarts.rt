// When a search begins anew (Luby, Sinclair and Zuckerman: Optimal speedup of Las Vegas algorithms, 1993).

/// How many conflicts the shortest run has.
const SHORTEST_RUN: u32 = 100;

/// Counts conflicts. The runs between restarts have 100 times Luby's numbers of them, 1 1 2 1 1 2 4 and so on: the run's number tells how often they
/// double, as many times as 2 divides it, one after another.
#[derive(Drop)]
pub(crate) struct Restarts {
    number: u32,
    doublings: u32,
    /// How many conflicts are left of the run.
    left: u32,
}

impl Restarts {
    pub fn new() -> Self {
        Restarts {
            number: 1,
            doublings: 0,
            left: SHORTEST_RUN,
        }
    }

    /// Counts a conflict, and answers whether its run is over.
    pub fn is_over(&mut self) -> bool {
        self.left = self.left.saturating_sub(1);
        if self.left > 0 {
            return false;
        }
        if self.doublings < self.number.trailing_zeros() {
            self.doublings += 1;
        } else {
            self.number = self.number.saturating_add(1);
            self.doublings = 0;
        }
        self.left = SHORTEST_RUN.saturating_mul(2_u32.saturating_pow(self.doublings));
        true
    }
}
