//! How the definitions of this crate fit together.

ghost use Rattle.drain_floats.specs.Patterns.{PatternsReadBack};

/// What is written for a number is read as the same.
#[tactic(auto, using(crate::proofs::ReadBack::read_back))]
pub fn patterns_read_back()
    ensures { PatternsReadBack }
{}
