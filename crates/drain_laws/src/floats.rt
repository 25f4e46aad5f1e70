//! That heights of floats are what the toolchain's definition of floats says.
//!
//! A law is a function with an empty body: its contract is the law.

ghost use Rattle.drain_laws.specs.Floats.{PatternsMeanFloats};

/// The float of each pattern of 32 bits by the toolchain's definition: if it is finite, its value times 2^149 is the
/// height of the pattern's number; infinities and NaNs have the numbers beyond.
#[tactic(auto, using(crate::proofs::FloatBits::mean_floats))]
pub fn patterns_mean_floats()
    ensures { PatternsMeanFloats }
{}
