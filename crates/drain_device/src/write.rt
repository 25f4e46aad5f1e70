//! Writing to a device that may be interrupted, or take fewer bytes than it is given.

ghost use Rattle.std.specs.Prelude.{◌≡◌, ◌-◌, ◌↔◌, ℕ, IsErr};
ghost use Rattle.drain_device.specs.Counts.{Answered, counted, HandsOver};
ghost use Rattle.drain_device.specs.Failing.{GivesUpWriting};

use crate::fault::DeviceFault;
use crate::patience::{GaveUp, Patience};
use crate::sink::ByteSink;

/// Writes all the bytes, or fails for good before the last of them.
pub fn write_all<W: ByteSink>(
    to: &mut W,
    bytes: &[u8],
    patience: &mut Patience,
) -> Result<(), GaveUp>
    ensures bytes { HandsOver (W.bytes_taken to.old) (W.bytes_taken to.new) result bytes.now }

    // It fails for good exactly if the sink failed, stalled, or was interrupted more often than the patience allows.
    ensures faults { (failures : ℕ) × (interruptions : ℕ) × (stalls : ℕ)
        × Answered (W.counts to.old) (W.counts to.new) failures interruptions
        × (W.stalls to.new ≡ counted (W.stalls to.old) stalls)
        × (patience.new ≡ patience.old - interruptions)
        × (IsErr result ↔ GivesUpWriting patience.old failures interruptions stalls) }
{
    let mut at = 0;
    while at < bytes.len() {
        match to.write_some(&bytes[at..]) {
            Ok(0) => return Err(GaveUp),
            Ok(n) => at += n,
            Err(DeviceFault::Failed) => return Err(GaveUp),
            Err(DeviceFault::Interrupted) => patience.tolerate()?,
        }
    }
    Ok(())
}
