//! Reading parts of a known length: a part into a slice, a part that is skipped, and the end.
//!
//! Row sources are put together from these three. None of them requests a byte after its part, except `read_end`: the
//! end can only be seen by requesting one byte more.

ghost use Rattle.std.specs.Prelude.{◌≡◌, ℕ, List, length, IsErrOf};
ghost use Rattle.drain_device.specs.Failing.{PartFails};
ghost use Rattle.drain_device.specs.RowSteps.{EndComes, PartComes};

use crate::patience::Patience;
use crate::read::read_full;
use crate::row_source::ReadFault;
use crate::source::ByteSource;

/// How many bytes are skipped at once.
const PASSED_BYTES: usize = 4096;

/// Fills the slice. Returns `WrongLength` if the bytes end before that, `ReadFailed` if the device fails for good.
pub fn read_part<R: ByteSource>(
    from: &mut R,
    out: &mut [u8],
    patience: &mut Patience,
) -> Result<(), ReadFault>
    ensures bytes { PartComes (length out.old) (R.bytes_left from.old) (R.bytes_left from.new) result out.new }
    ensures faults { PartFails (R.counts from.old) (R.counts from.new) patience.old patience.new (IsErrOf result ReadFault.ReadFailed) }
{
    let expected = out.len();
    let Ok(came) = read_full(from, out, patience) else {
        return Err(ReadFault::ReadFailed);
    };
    if came < expected {
        return Err(ReadFault::WrongLength);
    }
    Ok(())
}

/// Skips `count` bytes, with the errors of `read_part`. It holds few of them at a time.
pub fn pass_part<R: ByteSource>(
    from: &mut R,
    count: usize,
    patience: &mut Patience,
) -> Result<(), ReadFault>
    ensures bytes { (bytes : List ℕ) × PartComes count (R.bytes_left from.old) (R.bytes_left from.new) result bytes }
    ensures faults { PartFails (R.counts from.old) (R.counts from.new) patience.old patience.new (IsErrOf result ReadFault.ReadFailed) }
{
    let mut chunk = [0; PASSED_BYTES];
    let mut left = count;
    while left > 0 {
        let expected = PASSED_BYTES.min(left);
        read_part(from, &mut chunk[..expected], patience)?;
        left -= expected;
    }
    Ok(())
}

/// Checks for the end: `WrongLength` if a byte is left, which is then read, `ReadFailed` if the device fails for good.
pub fn read_end<R: ByteSource>(from: &mut R, patience: &mut Patience) -> Result<(), ReadFault>
    ensures bytes { EndComes (R.bytes_left from.old) (R.bytes_left from.new) result }
    ensures faults { PartFails (R.counts from.old) (R.counts from.new) patience.old patience.new (IsErrOf result ReadFault.ReadFailed) }
{
    let mut byte = [0];
    match read_full(from, &mut byte, patience) {
        Ok(0) => Ok(()),
        Ok(_) => Err(ReadFault::WrongLength),
        Err(_) => Err(ReadFault::ReadFailed),
    }
}
