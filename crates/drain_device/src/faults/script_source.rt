//! A scripted source over the bytes of a slice.

ghost use Rattle.std.specs.Prelude.{◌≡◌, ◌<◌, ◌≤◌, ◌↔◌};
ghost use Rattle.drain_device.specs.Names.{min, length, IfOk, IsErrOf, Some, ReadConsumes};
ghost use Rattle.drain_device.specs.Counts.{counted, counts_after, no_faults};
ghost use Rattle.drain_device.specs.Failing.{answer_of};
ghost use Rattle.drain_device.specs.declared.fault.DeviceFault.{DeviceFault};

use super::script::{Scripted, answer_at};
use crate::counts::FaultCounts;
use crate::fault::DeviceFault;
use crate::source::ByteSource;

/// A source that gives few bytes at a call, with faults by its script.
#[derive(Drop)]
pub struct ScriptSource<'a> {
    rest: &'a [u8],
    most: usize,
    script: &'a [Scripted<DeviceFault>],
    calls: u64,
    counts: FaultCounts,
    ghost gives_some: { 0 < most },
}

impl<'a> ScriptSource<'a> {
    /// A source of these bytes; a call gives at most `most` of them.
    pub fn new(
        bytes: &'a [u8],
        most: usize,
        script: &'a [Scripted<DeviceFault>],
    ) -> ScriptSource<'a>
        requires { 0 < most }
        ensures bytes { ⟦<ScriptSource<'a> as ByteSource>⟧.bytes_left result ≡ Some bytes.now }
        ensures counts { ⟦<ScriptSource<'a> as ByteSource>⟧.counts result ≡ no_faults }
        ensures most { result.most ≡ most }
        ensures script { result.script.now ≡ script.now }
        ensures calls { result.calls ≡ 0 }
    {
        ScriptSource {
            rest: bytes,
            most,
            script,
            calls: 0,
            counts: FaultCounts::NONE,
        }
    }
}

impl ByteSource for ScriptSource<'_> {
    ghost bytes_left = { λ s. Some s.rest.now };

    ghost counts = { λ s. s.counts };

    fn read_some(&mut self, out: &mut [u8]) -> Result<usize, DeviceFault>
        ensures bound { IfOk result (λ n. n ≤ length out.old) }
        ensures some { IfOk result (λ n. n ≡ min (min (length self.old.rest.now) (length out.old)) self.old.most) }
        ensures bytes { ReadConsumes (Some self.old.rest.now) (Some self.new.rest.now) result out.new }
        ensures counted { self.new.counts ≡ counts_after self.old.counts result }

        // It answers a fault exactly if the script has one for the call.
        ensures scripted { (fault : DeviceFault) → IsErrOf result fault
            ↔ (answer_of self.old.script.now self.new.calls ≡ Some fault) }
        ensures calls { self.new.calls ≡ counted self.old.calls 1 }
        ensures script { self.new.script.now ≡ self.old.script.now }
        ensures most { self.new.most ≡ self.old.most }
    {
        self.calls = self.calls.saturating_add(1);
        if let Some(fault) = answer_at(self.script, self.calls) {
            return Err(self.counts.count(fault));
        }
        let n = self.rest.len().min(out.len()).min(self.most);
        let (first, rest) = self.rest.split_at(n);
        out[..n].copy_from_slice(first);
        self.rest = rest;
        Ok(n)
    }

    fn failures(&self) -> u64 {
        self.counts.failures
    }

    fn interruptions(&self) -> u64 {
        self.counts.interruptions
    }
}
