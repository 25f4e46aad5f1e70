//! Whether a sink can be written to, before there is anything to write.

ghost use Rattle.drain_device.specs.Names.{IsErr, Keeps};
ghost use Rattle.drain_device.specs.Failing.{WriteFails};

use crate::fault::DeviceFault;
use crate::patience::{GaveUp, TOO_MANY_INTERRUPTIONS};
use crate::sink::ByteSink;

/// Passes no byte to the sink, again after an interruption. It fails for good exactly if the sink failed, or was
/// interrupted for the 1,000th time in this call.
pub fn write_nothing<W: ByteSink>(to: &mut W) -> Result<(), GaveUp>
    ensures bytes { Keeps (W.bytes_taken to.old) (W.bytes_taken to.new) }
    ensures faults { WriteFails (W.counts to.old) (W.counts to.new) (W.stalls to.old) (W.stalls to.new) (IsErr result) }
{
    for tried in 0..TOO_MANY_INTERRUPTIONS {
        match to.write_some(&[]) {
            Ok(_) => return Ok(()),
            Err(DeviceFault::Failed) => return Err(GaveUp),
            Err(DeviceFault::Interrupted) => {}
        }
    }
    Err(GaveUp)
}
