//! Counts of steps.
ghost use Rattle.std.specs.Prelude.{◌≡◌};
ghost use Rattle.ur_base.specs.Counts.{next_count};

use std::marker::Model;

/// A count of steps, which stays at the greatest value. None of its calls takes memory.
#[derive(Debug, Drop)]
pub struct Steps {
    count: u64,
}

impl Model for Steps {
    ghost use Rattle.std.specs.Prelude.{ℕ};
    ghost use Rattle.std.specs.Coded.{coded_ℕ};

    ghost Value = { ℕ };

    ghost coded = { coded_ℕ };

    ghost view = { λ steps. steps.count };
}

impl Steps {
    /// No steps.
    pub fn new() -> Steps
        ensures { result ≡ 0 }
    {
        Steps { count: 0 }
    }

    /// One step more, unless the count is the greatest.
    pub fn tick(&mut self)
        ensures { self.new ≡ next_count self.old }
    {
        self.count = self.count.saturating_add(1);
    }

    /// How many steps there were.
    pub fn count(&self) -> u64
        ensures { result ≡ self.now }
    {
        self.count
    }
}
