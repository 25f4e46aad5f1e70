//! A writer of std as a device: a file, a pipe, standard output. It adds counts of faults and stalls to std's `Write`.

ghost use Rattle.std.specs.Prelude.{◌≡◌};
ghost use Rattle.drain_device.specs.Names.{Keeps};
ghost use Rattle.drain_device.specs.Counts.{no_faults, counts_after};

use crate::counts::FaultCounts;
use crate::fault::DeviceFault;
use crate::sink::ByteSink;
use std::io::Write;

/// A writer of std, whose faults and stalls are counted.
#[derive(Drop)]
pub struct Writer<W> {
    inner: W,
    counts: FaultCounts,
    stalls: u64,
}

impl<W: Write> Writer<W> {
    pub fn new(inner: W) -> Writer<W>
        ensures bytes { ⟦<Writer<W> as ByteSink>⟧.bytes_taken result ≡ W.contents inner }
        ensures counts { ⟦<Writer<W> as ByteSink>⟧.counts result ≡ no_faults }
        ensures stalls { ⟦<Writer<W> as ByteSink>⟧.stalls result ≡ 0 }
    {
        Writer {
            inner,
            counts: FaultCounts::NONE,
            stalls: 0,
        }
    }

    pub fn into_inner(self) -> W
        ensures { ⟦<Writer<W> as ByteSink>⟧.bytes_taken self ≡ W.contents result }
    {
        let Writer {
            inner,
            counts: _,
            stalls: _,
        } = self;
        inner
    }

    /// How many calls took nothing of a non-empty slice, without a fault.
    pub fn stalls(&self) -> u64
        ensures { result ≡ ⟦<Writer<W> as ByteSink>⟧.stalls self.now }
    {
        self.stalls
    }

    /// Writes what the inner writer buffers. The bytes taken stay the same.
    pub fn flush(&mut self) -> Result<(), DeviceFault>
        ensures bytes { Keeps (⟦<Writer<W> as ByteSink>⟧.bytes_taken self.old) (⟦<Writer<W> as ByteSink>⟧.bytes_taken self.new) }
        ensures counted { ⟦<Writer<W> as ByteSink>⟧.counts self.new ≡ counts_after (⟦<Writer<W> as ByteSink>⟧.counts self.old) result }
        ensures stalls { ⟦<Writer<W> as ByteSink>⟧.stalls self.new ≡ ⟦<Writer<W> as ByteSink>⟧.stalls self.old }
    {
        match self.inner.flush() {
            Ok(()) => Ok(()),
            Err(error) => Err(self.counts.count(error.into())),
        }
    }
}

impl<W: Write> ByteSink for Writer<W> {
    ghost bytes_taken = { λ s. W.contents s.inner };

    ghost counts = { λ s. s.counts };

    ghost stalls = { λ s. s.stalls };

    fn write_some(&mut self, bytes: &[u8]) -> Result<usize, DeviceFault> {
        match self.inner.write(bytes) {
            Ok(n) => {
                if n == 0 && !bytes.is_empty() {
                    self.stalls = self.stalls.saturating_add(1);
                }
                Ok(n)
            }
            Err(error) => Err(self.counts.count(error.into())),
        }
    }

    fn failures(&self) -> u64 {
        self.counts.failures
    }

    fn interruptions(&self) -> u64 {
        self.counts.interruptions
    }
}
