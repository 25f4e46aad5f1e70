//! When a line about progress is due: seldom enough that in any one second at most two of all lines come.

ghost use Rattle.std.specs.Prelude.{◌≡◌, ◌+◌, ◌≤◌, ◌↔◌, IsTrue};
ghost use Rattle.drain_progress.specs.Progress.{last_line};

use std::marker::Model;

/// The time between due lines, in milliseconds: a second, so that one more line may come in between.
pub const APART: u64 = 1000;

/// When the last line was printed, in milliseconds. Contracts see it as that number.
#[derive(Clone, Copy)]
pub struct Throttle {
    last: u64,
}

impl Model for Throttle {
    ghost use Rattle.std.specs.Prelude.{ℕ};

    ghost Value = { ℕ };

    ghost view = { λ p. p.last };

    ghost inverse = { λ last. record { last = last } };
}

impl Throttle {
    /// As if a line were printed at this time.
    pub fn new(now: u64) -> Throttle
        ensures { result ≡ now }
    {
        Throttle { last: now }
    }

    /// Whether a line is due: if a second has passed since the last. It then counts as printed.
    pub fn is_due(&mut self, now: u64) -> bool
        ensures due { IsTrue result ↔ (self.old + APART ≤ now) }
        ensures last { self.new ≡ last_line self.old now }
    {
        let due = now.saturating_sub(self.last) >= APART;
        if due {
            self.last = now;
        }
        due
    }

    /// Counts a line that is printed though it may not be due.
    pub fn restart(&mut self, now: u64)
        ensures { self.new ≡ now }
    {
        self.last = now;
    }
}
