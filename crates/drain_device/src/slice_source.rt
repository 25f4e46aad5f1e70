//! The bytes of a slice as a device, for input that is already in memory. Its contracts know its bytes; it never fails.

ghost use Rattle.std.specs.Prelude.{◌≡◌, Some};
ghost use Rattle.drain_device.specs.Counts.{no_faults};

use crate::fault::DeviceFault;
use crate::source::ByteSource;

/// The bytes of a slice.
#[derive(Drop)]
pub struct SliceSource<'a> {
    rest: &'a [u8],
}

impl<'a> SliceSource<'a> {
    pub fn new(bytes: &'a [u8]) -> SliceSource<'a>
        ensures { ⟦<SliceSource<'a> as ByteSource>⟧.bytes_left result ≡ Some bytes.now }
    {
        SliceSource { rest: bytes }
    }
}

impl ByteSource for SliceSource<'_> {
    ghost bytes_left = { λ s. Some s.rest.now };

    ghost counts = { λ s. no_faults };

    fn read_some(&mut self, out: &mut [u8]) -> Result<usize, DeviceFault> {
        let n = self.rest.len().min(out.len());
        let (first, rest) = self.rest.split_at(n);
        out[..n].copy_from_slice(first);
        self.rest = rest;
        Ok(n)
    }

    fn failures(&self) -> u64 {
        0
    }

    fn interruptions(&self) -> u64 {
        0
    }
}
