//! Which calls of a scripted device answer otherwise.

use drain_device::faults::Scripted;

/// A first and a last call; from 0 to 0 there is none.
pub type Calls = (u64, u64);

/// This answer at these calls.
pub fn at_calls<A>(calls: Calls, answer: A) -> Scripted<A> {
    let (first, last) = calls;
    Scripted {
        first,
        last,
        answer,
    }
}
