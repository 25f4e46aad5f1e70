//! A device with progress: each call is passed on as it is, and a counter, if there is one, gets the number of bytes read
//! or written.

ghost use Rattle.std.specs.Prelude.{◌≡◌};

use crate::progress::RowCounter;
use drain_device::{ByteSink, ByteSource, DeviceFault};

/// A device, and its counter.
#[derive(Drop)]
pub struct CountedDevice<'a, S> {
    inner: S,
    counter: Option<RowCounter<'a>>,
}

impl<'a, S> CountedDevice<'a, S> {
    /// The device, without a counter.
    pub fn new(inner: S) -> CountedDevice<'a, S>
        ensures { result.inner ≡ inner }
    {
        CountedDevice {
            inner,
            counter: None,
        }
    }

    /// Gives the device this counter from here on, or none.
    pub fn count_by(&mut self, counter: Option<RowCounter<'a>>)
        ensures { self.new.inner ≡ self.old.inner }
    {
        self.counter = counter;
    }

    fn pass(&mut self, bytes: usize)
        ensures { self.new.inner ≡ self.old.inner }
    {
        if let Some(counter) = &mut self.counter {
            counter.add(bytes);
        }
    }
}

impl<S: ByteSource> ByteSource for CountedDevice<'_, S> {
    ghost bytes_left = { λ w. S.bytes_left w.inner };

    ghost counts = { λ w. S.counts w.inner };

    fn read_some(&mut self, out: &mut [u8]) -> Result<usize, DeviceFault> {
        let came = self.inner.read_some(out);
        if let Ok(n) = came {
            self.pass(n);
        }
        came
    }

    fn failures(&self) -> u64 {
        self.inner.failures()
    }

    fn interruptions(&self) -> u64 {
        self.inner.interruptions()
    }
}

impl<S: ByteSink> ByteSink for CountedDevice<'_, S> {
    ghost bytes_taken = { λ w. S.bytes_taken w.inner };

    ghost counts = { λ w. S.counts w.inner };

    ghost stalls = { λ w. S.stalls w.inner };

    fn write_some(&mut self, bytes: &[u8]) -> Result<usize, DeviceFault> {
        let taken = self.inner.write_some(bytes);
        if let Ok(n) = taken {
            self.pass(n);
        }
        taken
    }

    fn failures(&self) -> u64 {
        self.inner.failures()
    }

    fn interruptions(&self) -> u64 {
        self.inner.interruptions()
    }
}
