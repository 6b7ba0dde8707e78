//! Calls that are counted, some of which are to fail.
ghost use Rattle.std.specs.Prelude.{◌≡◌};

/// The count of calls, and the numbers of those that are to fail, counted from 1.
#[derive(Drop)]
pub struct Calls {
    count: u64,
    fails: Vec<u64>,
}

impl Calls {
    ghost use Rattle.std.specs.Prelude.{[]};
    ghost use Rattle.vg_doubles.specs.Plan.{is_next_named, later};
    ghost use Rattle.vg_doubles.specs.Calls.{counted};

    /// No calls so far.
    pub fn new(fails: Vec<u64>) -> Calls
        ensures { counted result ≡ record { calls = 0; fails = fails.items } }
    {
        Calls { count: 0, fails }
    }

    /// Counts a call, and answers whether it is to fail.
    pub fn next_fails(&mut self) -> bool
        ensures fails { result ≡ is_next_named (counted self.old) }
        ensures later { counted self.new ≡ later (counted self.old) }
    {
        self.count = self.count.saturating_add(1);
        self.fails.contains(&self.count)
    }
}
