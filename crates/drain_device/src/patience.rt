//! How often an interrupted call is tried again. Every reader and writer uses this one rule: 999 interruptions of one
//! device are allowed, and the 1,000th is a failure.

ghost use Rattle.std.specs.Prelude.{◌≡◌, ◌+◌, ◌-◌, ◌↔◌, IsErr};

use std::marker::Model;
use thiserror::Error;

/// The interruption of a device that is one too many.
pub const TOO_MANY_INTERRUPTIONS: u32 = 1000;

/// The device failed, was interrupted for the 1,000th time, or took no byte of some.
#[derive(Clone, Copy, PartialEq, Eq, Debug, Error)]
#[error("the device gave up")]
pub struct GaveUp;

/// How many more interruptions of one device a reader or writer allows. Contracts see it as that number.
#[derive(Drop)]
pub struct Patience {
    left: u32,
}

impl Model for Patience {
    ghost use Rattle.std.specs.Prelude.{ℕ};

    ghost Value = { ℕ };

    ghost view = { λ p. p.left };
}

impl Patience {
    /// All interruptions but the one too many are left.
    pub fn new() -> Patience
        ensures { result + 1 ≡ TOO_MANY_INTERRUPTIONS }
    {
        Patience {
            left: TOO_MANY_INTERRUPTIONS - 1,
        }
    }

    /// Counts one more interruption, and returns whether it is one too many.
    pub fn tolerate(&mut self) -> Result<(), GaveUp>
        ensures too_many { IsErr result ↔ (self.old ≡ 0) }
        ensures left { self.new ≡ self.old - 1 }
    {
        self.left = self.left.checked_sub(1).ok_or(GaveUp)?;
        Ok(())
    }
}
