//! One sequence of a keeper in memory.
ghost use Rattle.std.specs.Prelude.{◌≡◌, ◌<ℤ◌, pos};
ghost use Rattle.ur_keeper.specs.Sequences.{committed_sequence, rolled_back_sequence, drawn_sequence};

/// The next number of a sequence, as it was saved and as it is now.
#[derive(Debug, Drop)]
pub struct Sequence {
    pub saved: i64,
    pub current: i64,
}

impl Sequence {
    /// Saves the current number. Takes no memory.
    pub fn commit(&mut self)
        ensures { self.new ≡ committed_sequence self.old }
    {
        self.saved = self.current;
    }

    /// Makes the saved number the current one. Takes no memory.
    pub fn rollback(&mut self)
        ensures { self.new ≡ rolled_back_sequence self.old }
    {
        self.current = self.saved;
    }

    /// The current number, which then rises by one. Takes no memory.
    pub fn draw(&mut self) -> i64
        requires { self.old.current <ℤ pos 9223372036854775807 }
        ensures number { result ≡ self.old.current }
        ensures drawn { self.new ≡ drawn_sequence self.old }
    {
        let number = self.current;
        self.current = number + 1;
        number
    }
}
