//! Reading a text to its end, and writing the bytes of a file.

ghost use Rattle.std.specs.Prelude.{◌<◌, ◌≤◌, ◌≡◌, ◌+◌, ◌⊎◌};
ghost use Rattle.drain_files.specs.Names.{WritesFile, Consumes, IsAtEnd, ℕ, IfOk, OnErr, IsErrOf, vec_len, IfErr, Answered};
ghost use Rattle.drain_device.specs.Failing.{GivesUp, full_patience};
ghost use Rattle.drain_device.specs.Reads.{TakesAtMost};
ghost use Rattle.drain_files.specs.Files.{TakesMoreThan};

use drain_device::{BodyFault, ByteSink, ByteSource, GaveUp, Patience, read_whole, write_all};
use drain_sets::SetFault;
use std::alloc::Global;

/// Writes the bytes of a file.
pub fn write_bytes<F: ByteSink>(to: &mut F, bytes: &[u8]) -> Result<(), SetFault>
    ensures { WritesFile F.ByteSink to.old to.new bytes.now result }
{
    match write_all(to, bytes, &mut Patience::new()) {
        Ok(()) => Ok(()),
        Err(GaveUp) => Err(SetFault::WriteFailed),
    }
}

/// The most bytes that a list of sinks or a report may have, 2^32.
pub const MAX_TEXT_BYTES: usize = 4294967296;

/// The most bytes that a text of widths may have, 2^21: 72 for each row that a raster may have.
pub const MAX_WIDTHS_BYTES: usize = 2097152;

/// Reads a text to its end, or one byte more than a text of this kind may have. More than `most` can't be read, which is
/// `ReadFailed`; so is a source that failed, or was interrupted for the 1,000th time. `OutOfMemory` comes if there is no
/// memory for more.
pub fn read_text<R: ByteSource>(
    alloc: Global,
    from: &mut R,
    most: usize,
) -> Result<Vec<u8>, BodyFault>
    requires { most ≤ MAX_TEXT_BYTES }
    ensures whole { IfOk result (λ text. Consumes (R.bytes_left from.old) (R.bytes_left from.new) text.items × IsAtEnd (R.bytes_left from.new)) }
    ensures bound { IfOk result (λ text. vec_len text ≤ most) }
    ensures within { OnErr result (TakesAtMost (most + 1) (R.bytes_left from.old) (R.bytes_left from.new)) }

    // A read fails if the source failed, or was interrupted for the 1,000th time in this call; else only if a text
    // can't have that many bytes.
    ensures faults { (failures : ℕ) × (interruptions : ℕ)
        × Answered (R.counts from.old) (R.counts from.new) failures interruptions
        × (GivesUp full_patience failures interruptions → IsErrOf result BodyFault.ReadFailed)
        × (IsErrOf result BodyFault.ReadFailed → GivesUp full_patience failures interruptions ⊎ TakesMoreThan most (R.bytes_left from.old) (R.bytes_left from.new)) }
{
    match read_whole(alloc, from, most + 1) {
        Ok(text) => unless_too_long(text, most),
        Err(fault) => Err(fault),
    }
}

/// The text, unless it has more bytes than a text may have.
fn unless_too_long(text: Vec<u8>, most: usize) -> Result<Vec<u8>, BodyFault>
    ensures kept { IfOk result (λ kept. (kept ≡ text) × (vec_len text ≤ most)) }
    ensures too_long { IfErr result (λ fault. (fault ≡ BodyFault.ReadFailed) × (most < vec_len text)) }
{
    if text.len() > most {
        return Err(BodyFault::ReadFailed);
    }
    Ok(text)
}
