//! A source, or ones in the place of a raster that isn't judged.

ghost use Rattle.std.specs.Prelude.{◌≡◌};

use drain_device::{ByteSource, DeviceFault};

/// A source, or this many ones in its place.
#[derive(Drop)]
pub enum SourceOrOnes<R> {
    Source(R),
    Ones(usize),
}

impl<R> SourceOrOnes<R> {
    /// As many ones as any raster has bytes.
    pub fn missing() -> SourceOrOnes<R>
        ensures { result ≡ SourceOrOnes.Ones 9223372036854775807 }
    {
        SourceOrOnes::Ones(usize::MAX / 2)
    }
}

impl<R: ByteSource> ByteSource for SourceOrOnes<R> {
    ghost use Rattle.drain_files.specs.Files.{bytes_of, source_counts};

    ghost bytes_left = { bytes_of R.bytes_left };

    ghost counts = { source_counts R.counts };

    fn read_some(&mut self, out: &mut [u8]) -> Result<usize, DeviceFault> {
        match self {
            SourceOrOnes::Source(source) => source.read_some(out),
            SourceOrOnes::Ones(left) => {
                let n = out.len().min(*left);
                out[..n].fill(1);
                *left -= n;
                Ok(n)
            }
        }
    }

    fn failures(&self) -> u64 {
        match self {
            SourceOrOnes::Source(source) => source.failures(),
            SourceOrOnes::Ones(_) => 0,
        }
    }

    fn interruptions(&self) -> u64 {
        match self {
            SourceOrOnes::Source(source) => source.interruptions(),
            SourceOrOnes::Ones(_) => 0,
        }
    }
}
