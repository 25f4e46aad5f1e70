//! Lists of sinks read to their end, from sources that are slow, interrupted or fail.

use drain_device::faults::{ScriptSource, Scripted};
use drain_device::{BodyFault, DeviceFault};
use drain_files::whole_input::{MAX_TEXT_BYTES, read_text};
use std::alloc::Global;
use std::process::Abort;
use std::test::Fail;
use worked::calls::at_calls;
use worked::memory::owed;

/// The bytes of the longest list here.
const LONGEST: usize = 40_000;

/// A number that no part of a list repeats in the same place.
fn byte_at(place: usize) -> u8 {
    (place % 251) as u8
}

/// The longest list.
fn bytes() -> [u8; LONGEST] {
    let mut bytes = [0; LONGEST];
    for (place, byte) in bytes.iter_mut().enumerate() {
        *byte = byte_at(place);
    }
    bytes
}

/// How many bytes were read of a list of this length, if they are the list's own. The source gives at most this number
/// of bytes a call, and faults by the script.
fn came(
    alloc: Global,
    length: usize,
    most: usize,
    script: &[Scripted<DeviceFault>],
) -> Result<Option<usize>, BodyFault> {
    let bytes = bytes();
    let Some(list) = bytes.get(..length) else {
        return Ok(None);
    };
    if most == 0 {
        return Ok(None);
    }
    let mut source = ScriptSource::new(list, most, script);
    let came = read_text(alloc, &mut source, MAX_TEXT_BYTES)?;
    Ok(if came.as_slice() == list {
        Some(came.len())
    } else {
        None
    })
}

/// Fails the test if the result isn't the expected one.
fn same_read(
    rt: &impl Abort,
    case: u64,
    came: Result<Option<usize>, BodyFault>,
    wanted: Result<Option<usize>, BodyFault>,
) {
    assert_eq!(rt; came, wanted, "{case}");
}

/// The bytes of lists, and how many a source gives a call.
static LENGTHS: [usize; 7] = [0, 1, 16_383, 16_384, 16_385, 32_768, LONGEST];

static MOST_AT_A_CALL: [usize; 4] = [1, 7, 16_384, 100_000];

#[test]
fn reads_lists_of_each_length_whole(rt: HostRuntime) -> Result<(), Fail> {
    for &length in &LENGTHS {
        for &most in &MOST_AT_A_CALL {
            let read = came(rt.alloc(), length, most, &[]);
            same_read(&rt, length as u64, read, Ok(Some(length)));
        }
    }
    Ok(())
}

const WHOLE: Result<Option<usize>, BodyFault> = Ok(Some(LONGEST));

const FAILED: Result<Option<usize>, BodyFault> = Err(BodyFault::ReadFailed);

/// The answers of a source at which calls, and the result. 42 calls give all, as the last of a chunk gives less, and
/// the next finds the end.
static FAULTS: [(u64, u64, u64, DeviceFault, Result<Option<usize>, BodyFault>); 10] = [
    (1, 1, 999, DeviceFault::Interrupted, WHOLE),
    (2, 1, 1000, DeviceFault::Interrupted, FAILED),
    (3, 20, 1018, DeviceFault::Interrupted, WHOLE),
    (4, 20, 1019, DeviceFault::Interrupted, FAILED),
    (5, 1, u64::MAX, DeviceFault::Interrupted, FAILED),
    (6, 1, 1, DeviceFault::Failed, FAILED),
    (7, 20, 20, DeviceFault::Failed, FAILED),
    (8, 42, 42, DeviceFault::Failed, FAILED),
    (9, 43, 43, DeviceFault::Failed, FAILED),
    (10, 44, 44, DeviceFault::Failed, WHOLE),
];

#[test]
fn bears_999_interruptions_of_a_list(rt: HostRuntime) -> Result<(), Fail> {
    for &(case, first, last, answer, wanted) in &FAULTS {
        let script = [at_calls((first, last), answer)];
        same_read(&rt, case, came(rt.alloc(), LONGEST, 1000, &script), wanted);
    }
    Ok(())
}

/// The last call at which a second chunk is interrupted, and the result.
static SECOND_FAULTS: [(u64, u64, Result<Option<usize>, BodyFault>); 2] = [
    (1, 1000, WHOLE),
    (2, 1001, FAILED),
];

/// Interruptions of one chunk after another are counted together.
#[test]
fn counts_interruptions_over_all_chunks(rt: HostRuntime) -> Result<(), Fail> {
    for &(case, last, wanted) in &SECOND_FAULTS {
        let script = [
            at_calls((1, 500), DeviceFault::Interrupted),
            at_calls((502, last), DeviceFault::Interrupted),
        ];
        let read = came(rt.alloc(), LONGEST, 16_384, &script);
        same_read(&rt, case, read, wanted);
    }
    Ok(())
}

/// Normally memory is there; `tests/refuse_memory.c` refuses it.
#[test]
fn a_list_after_refused_memory(rt: HostRuntime) -> Result<(), Fail> {
    let right = Ok(Some(LONGEST));
    let first = came(rt.alloc(), LONGEST, 1000, &[]);
    let wanted = owed(rt.alloc(), Err(BodyFault::OutOfMemory), right);
    same_read(&rt, 1, first, wanted);
    same_read(&rt, 2, came(rt.alloc(), LONGEST, 1000, &[]), right);
    Ok(())
}
