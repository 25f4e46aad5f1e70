//! What a scripted device answers at which call.

ghost use Rattle.std.specs.Prelude.{◌≡◌};
ghost use Rattle.drain_device.specs.Failing.{answer_of};

/// The answer to some calls, from the first to the last of them. Calls count from 1.
#[derive(Clone, Copy, PartialEq, Eq, Debug)]
pub struct Scripted<A> {
    pub first: u64,
    pub last: u64,
    pub answer: A,
}

/// What a scripted sink answers instead of taking bytes.
#[derive(Clone, Copy, PartialEq, Eq, Debug)]
pub enum SinkAnswer {
    /// The call may be tried again.
    Interrupted,
    /// The device failed.
    Failed,
    /// The call took no byte, and returned 0.
    TookNone,
}

/// The script's answer to a call: that of the first line that covers it.
pub fn answer_at<A: Copy>(script: &[Scripted<A>], call: u64) -> Option<A>
    ensures { result ≡ answer_of script.now call }
{
    script
        .iter()
        .find(|line| line.first <= call && call <= line.last)
        .map(|line| line.answer)
}
