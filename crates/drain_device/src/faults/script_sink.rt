//! A scripted sink into a vector.

ghost use Rattle.std.specs.Prelude.{◌≡◌, ◌<◌, ◌≤◌};
ghost use Rattle.drain_device.specs.Names.{min, length, IfOk, IsOkUnless, Some, None, WriteAppends};
ghost use Rattle.drain_device.specs.Counts.{counted, counts_after, stalls_after, no_faults};
ghost use Rattle.drain_device.specs.Failing.{answer_of, answer_given};
ghost use Rattle.drain_device.specs.declared.faults.script.SinkAnswer.{SinkAnswer};
ghost use Rattle.drain_device.specs.declared.fault.DeviceFault.TheVariants.{Failed};

use super::script::{Scripted, SinkAnswer, answer_at};
use crate::counts::FaultCounts;
use crate::fault::DeviceFault;
use crate::sink::ByteSink;

/// A sink that takes few bytes at a call, and by its script answers a fault or takes none. A call that runs out of
/// memory answers `Failed`.
#[derive(Drop)]
pub struct ScriptSink<'a> {
    bytes: Vec<u8>,
    most: usize,
    script: &'a [Scripted<SinkAnswer>],
    calls: u64,
    counts: FaultCounts,
    stalls: u64,
    ghost takes_some: { 0 < most },
}

impl<'a> ScriptSink<'a> {
    /// A sink after these bytes; a call takes at most `most` of them.
    pub fn new(bytes: Vec<u8>, most: usize, script: &'a [Scripted<SinkAnswer>]) -> ScriptSink<'a>
        requires { 0 < most }
        ensures bytes { ⟦<ScriptSink<'a> as ByteSink>⟧.bytes_taken result ≡ Some bytes.items }
        ensures counts { ⟦<ScriptSink<'a> as ByteSink>⟧.counts result ≡ no_faults }
        ensures stalls { ⟦<ScriptSink<'a> as ByteSink>⟧.stalls result ≡ 0 }
        ensures most { result.most ≡ most }
        ensures script { result.script.now ≡ script.now }
        ensures calls { result.calls ≡ 0 }
    {
        ScriptSink {
            bytes,
            most,
            script,
            calls: 0,
            counts: FaultCounts::NONE,
            stalls: 0,
        }
    }

    /// The bytes that it has taken, after those that the vector held before.
    pub fn as_slice(&self) -> &[u8]
        ensures { ⟦<ScriptSink<'a> as ByteSink>⟧.bytes_taken self.now ≡ Some result.now }
    {
        self.bytes.as_slice()
    }

    /// How many calls took nothing of a non-empty slice, without a fault.
    pub fn stalls(&self) -> u64
        ensures { result ≡ ⟦<ScriptSink<'a> as ByteSink>⟧.stalls self.now }
    {
        self.stalls
    }
}

impl ByteSink for ScriptSink<'_> {
    ghost bytes_taken = { λ s. Some s.bytes.items };

    ghost counts = { λ s. s.counts };

    ghost stalls = { λ s. s.stalls };

    fn write_some(&mut self, bytes: &[u8]) -> Result<usize, DeviceFault>
        ensures bound { IfOk result (λ n. n ≤ length bytes.now) }
        ensures taken { WriteAppends (Some self.old.bytes.items) (Some self.new.bytes.items) result bytes.now }
        ensures counted { self.new.counts ≡ counts_after self.old.counts result }
        ensures stalled { self.new.stalls ≡ stalls_after self.old.stalls result bytes.now }

        // It answers what the script has for the call; without a line for it, it takes some, or runs out of memory.
        ensures scripted { (answer : SinkAnswer) → answer_of self.old.script.now self.new.calls ≡ Some answer
            → result ≡ answer_given answer }
        ensures unscripted { answer_of self.old.script.now self.new.calls ≡ None
            → IsOkUnless result Failed × IfOk result (λ n. n ≡ min (length bytes.now) self.old.most) }
        ensures calls { self.new.calls ≡ counted self.old.calls 1 }
        ensures script { self.new.script.now ≡ self.old.script.now }
        ensures most { self.new.most ≡ self.old.most }
    {
        self.calls = self.calls.saturating_add(1);
        match answer_at(self.script, self.calls) {
            Some(SinkAnswer::Interrupted) => {
                return Err(self.counts.count(DeviceFault::Interrupted));
            }
            Some(SinkAnswer::Failed) => return Err(self.counts.count(DeviceFault::Failed)),
            Some(SinkAnswer::TookNone) => {
                if !bytes.is_empty() {
                    self.stalls = self.stalls.saturating_add(1);
                }
                return Ok(0);
            }
            None => {}
        }
        let n = bytes.len().min(self.most);
        if self.bytes.extend_from_slice(&bytes[..n]).is_err() {
            return Err(self.counts.count(DeviceFault::Failed));
        }
        Ok(n)
    }

    fn failures(&self) -> u64 {
        self.counts.failures
    }

    fn interruptions(&self) -> u64 {
        self.counts.interruptions
    }
}
