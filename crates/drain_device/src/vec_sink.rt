//! A vector as a device, for output that stays in memory. Its contracts know its bytes; it fails only if the vector
//! can't grow.

ghost use Rattle.std.specs.Prelude.{◌≡◌, Some};
ghost use Rattle.drain_device.specs.Counts.{no_faults};

use crate::counts::FaultCounts;
use crate::fault::DeviceFault;
use crate::sink::ByteSink;

/// A vector that takes bytes at its end. A call that runs out of memory returns `Failed` and leaves the vector as it
/// was.
#[derive(Drop)]
pub struct VecSink {
    bytes: Vec<u8>,
    counts: FaultCounts,
}

impl VecSink {
    pub fn new(bytes: Vec<u8>) -> VecSink
        ensures bytes { ⟦<VecSink as ByteSink>⟧.bytes_taken result ≡ Some bytes.items }
        ensures counts { ⟦<VecSink as ByteSink>⟧.counts result ≡ no_faults }
    {
        VecSink {
            bytes,
            counts: FaultCounts::NONE,
        }
    }

    /// The bytes that it has taken, after those that the vector held before.
    pub fn as_slice(&self) -> &[u8]
        ensures { ⟦<VecSink as ByteSink>⟧.bytes_taken self.now ≡ Some result.now }
    {
        self.bytes.as_slice()
    }

    pub fn into_inner(self) -> Vec<u8>
        ensures { ⟦<VecSink as ByteSink>⟧.bytes_taken self ≡ Some result.items }
    {
        let VecSink { bytes, counts: _ } = self;
        bytes
    }
}

impl ByteSink for VecSink {
    ghost bytes_taken = { λ s. Some s.bytes.items };

    ghost counts = { λ s. s.counts };

    ghost stalls = { λ s. 0 };

    fn write_some(&mut self, bytes: &[u8]) -> Result<usize, DeviceFault> {
        if self.bytes.extend_from_slice(bytes).is_err() {
            return Err(self.counts.count(DeviceFault::Failed));
        }
        Ok(bytes.len())
    }

    fn failures(&self) -> u64 {
        self.counts.failures
    }

    fn interruptions(&self) -> u64 {
        self.counts.interruptions
    }
}
