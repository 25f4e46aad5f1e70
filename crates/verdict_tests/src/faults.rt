//! Tests of sources that fault: an example whose sources give one byte a call is checked, and the line must be the
//! expected one.

use crate::agree::same_line;
use crate::example::Example;
use crate::inputs::{Faulty, Owner};
use crate::runs::{Checked, told_slowly};
use drain_device::DeviceFault;
use drain_device::faults::Scripted;
use std::alloc::Global;
use std::process::Abort;
use std::test::Fail;

/// Which calls of an owner's source return a fault: from the first to the last of them.
#[derive(Clone, Copy)]
pub struct FaultyCalls {
    pub owner: Owner,
    pub first: u64,
    pub last: u64,
    pub answer: DeviceFault,
}

/// Fails the test if a line isn't the expected one when a source faults, and names the case.
pub fn tells_beside(
    rt: &impl Abort,
    alloc: Global,
    asked: Checked,
    case: &str,
    example: &Example,
    calls: FaultyCalls,
    owed: &str,
) -> Result<(), Fail> {
    let script = [Scripted {
        first: calls.first,
        last: calls.last,
        answer: calls.answer,
    }];
    let faulty = Faulty {
        owner: calls.owner,
        script: &script,
    };
    let given = told_slowly(alloc, asked, example, faulty)?;
    let case = (case, calls.owner, calls.first, calls.last);
    same_line(rt, case, &given, owed);
    Ok(())
}

/// The same of checks in which each call of an owner's source fails in turn. If the source has no such call, the line
/// is the right one.
pub fn fails_at_each_call(
    rt: &impl Abort,
    alloc: Global,
    case: &str,
    example: &Example,
    (owner, asked): (Owner, u64),
    right: &str,
) -> Result<(), Fail> {
    for before in 0..=asked {
        let first = before.saturating_add(1);
        let (last, owed) = if before < asked {
            (first, "failed ReadFailed")
        } else {
            (u64::MAX, right)
        };
        let calls = FaultyCalls {
            owner,
            first,
            last,
            answer: DeviceFault::Failed,
        };
        tells_beside(rt, alloc, Checked::Check, case, example, calls, owed)?;
    }
    Ok(())
}

/// How often a source faults, how, and the expected line.
pub type Times = (u64, DeviceFault, &'static str);

/// The same if the source of each of these owners faults this often from this call on, and then continues.
pub fn goes_on_after(
    rt: &impl Abort,
    alloc: Global,
    asked: Checked,
    example: &Example,
    middles: &[(Owner, u64)],
    cases: &[Times],
) -> Result<(), Fail> {
    for &(owner, first) in middles {
        for &(times, answer, line) in cases {
            let calls = FaultyCalls {
                owner,
                first,
                last: first.saturating_add(times).saturating_sub(1),
                answer,
            };
            tells_beside(rt, alloc, asked, "goes on", example, calls, line)?;
        }
    }
    Ok(())
}
