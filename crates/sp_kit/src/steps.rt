ghost use Rattle.std.specs.Prelude.{◌≡◌, ℕ};
ghost use Rattle.sp_kit.specs.Causes.{one_more};

/// Counts steps. Its two meanings are the counts of stanzas read and of pages filled; a count stands still at the
/// greatest 64-bit number (docs/RULES.md, "The program").
pub trait Steps {
    ghost reads: { Self → ℕ };

    ghost fills: { Self → ℕ };

    /// Adds one to the count of stanzas read and leaves the other.
    fn tick_read(&mut self)
        ensures reads { reads self.new ≡ one_more (reads self.old) }
        ensures fills { fills self.new ≡ fills self.old };

    /// Adds one to the count of pages filled and leaves the other.
    fn tick_fill(&mut self)
        ensures fills { fills self.new ≡ one_more (fills self.old) }
        ensures reads { reads self.new ≡ reads self.old };
}

/// The two counts, as numbers.
#[derive(Clone, Copy, PartialEq, Eq, Drop)]
pub struct Counter {
    reads: u64,
    fills: u64,
}

impl Counter {
    ghost use Rattle.std.specs.Prelude.{◌≡◌};

    /// Both counts at 0. Takes no memory.
    pub fn new() -> Counter
        ensures { result ≡ record { reads = 0; fills = 0 } }
    {
        Counter { reads: 0, fills: 0 }
    }

    /// How many stanzas were read.
    pub fn reads(&self) -> u64
        ensures { result ≡ self.now.reads }
    {
        self.reads
    }

    /// How many pages were filled.
    pub fn fills(&self) -> u64
        ensures { result ≡ self.now.fills }
    {
        self.fills
    }
}

impl Steps for Counter {
    ghost reads = { λ c. c.reads };

    ghost fills = { λ c. c.fills };

    fn tick_read(&mut self) {
        self.reads = self.reads.saturating_add(1);
    }

    fn tick_fill(&mut self) {
        self.fills = self.fills.saturating_add(1);
    }
}
