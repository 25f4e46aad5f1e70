//! Where rows come from: the trait of every reader of rows, and the state of such a reader.
//!
//! A row source keeps no device. The device is lent at each call, so many row sources and their devices can go on
//! together, with one row of each in memory.

ghost use Rattle.std.specs.Prelude.{◌≡◌, ◌≢◌, ℕ, List, IsErrOf};
ghost use Rattle.drain_device.specs.RowSteps.{Coming, Gives, IsEmptyUnlessRow, IsLong, ReadsWithin, StaysEnded, progress_after};
ghost use Rattle.drain_device.specs.Failing.{PartFails};
ghost use Rattle.drain_device.specs.declared.row_source.Progress.{Progress};

use crate::source::ByteSource;
use thiserror::Error;

/// What a call of a row source returns.
#[derive(Clone, Copy, PartialEq, Eq, Debug)]
pub enum RowStep {
    /// The next row is there.
    Row,
    /// No row is left.
    Ended,
}

/// Why a row source gives no row.
#[derive(Clone, Copy, PartialEq, Eq, Debug, Error)]
pub enum ReadFault {
    /// The bytes end too early, or go on too long.
    #[error("the input has another length")]
    WrongLength,
    /// The device failed for good.
    #[error("the read failed")]
    ReadFailed,
    /// Out of memory for a row.
    #[error("out of memory")]
    OutOfMemory,
    /// An earlier call returned a fault. Nothing was read.
    #[error("an earlier call failed")]
    AlreadyFailed,
}

/// The state of a row source.
#[derive(Clone, Copy, PartialEq, Eq, Debug)]
pub enum Progress {
    /// It may give rows.
    Going,
    /// It has returned `Ended`.
    Done,
    /// It has returned a fault.
    Stopped,
}

/// A reader of rows from a device, which is lent at each call and is the same each time.
pub trait RowSource<R: ByteSource> {
    /// What is to come, if these bytes are left.
    ghost coming: { Self → List ℕ → Coming };

    /// Whether it goes on, has ended, or has stopped at a fault.
    ghost progress: { Self → Progress };

    /// How many bytes it still reads at most.
    ghost most_bytes: { Self → ℕ };

    /// How many interruptions it still allows.
    ghost patience: { Self → ℕ };

    /// How many numbers each row has.
    ghost row_len: { Self → ℕ };

    /// Reads the next row into the vector, which then holds only that row; or returns that none is left, with an empty
    /// vector.
    ///
    /// After `Ended` every later call returns `Ended`, after a fault every later call `AlreadyFailed`; these read
    /// nothing.
    fn next_row(&mut self, from: &mut R, out: &mut Vec<i64>) -> Result<RowStep, ReadFault>
        // What was to come was the row given and what comes after it.
        ensures rows { Gives (coming self.old) (coming self.new) (R.bytes_left from.old) (R.bytes_left from.new) result out.new.items }
        ensures empty { IsEmptyUnlessRow result out.new.items }
        ensures long { IsLong (row_len self.old) result out.new.items }
        ensures keeps_len { row_len self.new ≡ row_len self.old }

        // The end and a fault stay.
        ensures stays { StaysEnded (progress self.old) result }
        ensures already { IsErrOf result ReadFault.AlreadyFailed → progress self.old ≡ Progress.Stopped }
        ensures after { progress self.new ≡ progress_after result }
        ensures reads_nothing { progress self.old ≢ Progress.Going → from.new ≡ from.old }

        // No byte of a later row is read, and the read fails exactly if the device fails for good.
        ensures within { ReadsWithin (most_bytes self.old) (most_bytes self.new) (R.bytes_left from.old) (R.bytes_left from.new) }
        ensures faults { PartFails (R.counts from.old) (R.counts from.new) (patience self.old) (patience self.new) (IsErrOf result ReadFault.ReadFailed) };
}
