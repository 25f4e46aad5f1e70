//! A reader of std as a device: a file, a pipe, standard input. It adds counts of faults to std's `Read`.

ghost use Rattle.std.specs.Prelude.{◌≡◌};
ghost use Rattle.drain_device.specs.Counts.{no_faults};

use crate::counts::FaultCounts;
use crate::fault::DeviceFault;
use crate::source::ByteSource;
use std::io::Read;

/// A reader of std, whose faults are counted.
#[derive(Drop)]
pub struct Reader<R> {
    inner: R,
    counts: FaultCounts,
}

impl<R: Read> Reader<R> {
    pub fn new(inner: R) -> Reader<R>
        ensures bytes { ⟦<Reader<R> as ByteSource>⟧.bytes_left result ≡ R.remaining inner }
        ensures counts { ⟦<Reader<R> as ByteSource>⟧.counts result ≡ no_faults }
    {
        Reader {
            inner,
            counts: FaultCounts::NONE,
        }
    }

    pub fn into_inner(self) -> R
        ensures { ⟦<Reader<R> as ByteSource>⟧.bytes_left self ≡ R.remaining result }
    {
        let Reader { inner, counts: _ } = self;
        inner
    }
}

impl<R: Read> ByteSource for Reader<R> {
    ghost bytes_left = { λ s. R.remaining s.inner };

    ghost counts = { λ s. s.counts };

    fn read_some(&mut self, out: &mut [u8]) -> Result<usize, DeviceFault> {
        match self.inner.read(out) {
            Ok(n) => Ok(n),
            Err(error) => Err(self.counts.count(error.into())),
        }
    }

    fn failures(&self) -> u64 {
        self.counts.failures
    }

    fn interruptions(&self) -> u64 {
        self.counts.interruptions
    }
}
