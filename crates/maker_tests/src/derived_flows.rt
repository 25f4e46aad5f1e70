//! Flows in memory.

use crate::derived::{NONE, numbers, same};
use drain_grid::Shape;
use drain_maker::derive_from_flows;
use drain_paths::{CertifyRefusal, Flow};
use std::test::Fail;

/// Two outlets, a void and a run of two steps.
#[test]
fn derives_from_flows(rt: HostRuntime) -> Result<(), Fail> {
    let Some(shape) = Shape::new(2, 3) else {
        return Err("a shape".into());
    };
    let flows = [
        Flow::ToEast,
        Flow::ToSouth,
        Flow::Void,
        Flow::Ends,
        Flow::Ends,
        Flow::ToWest,
    ];
    match derive_from_flows(rt.alloc(), &flows, shape) {
        Ok(derived) => {
            let first = [[1, 2, 0], [2, 2, 0], [2, 1, NONE]];
            let second = [[1, 4, 1], [1, 2, 2], [0, 0, 1]];
            same(&rt, numbers(&derived, 0), first);
            same(&rt, numbers(&derived, 1), second);
            Ok(())
        }
        Err(CertifyRefusal::OutOfMemory) => Err("failed OutOfMemory".into()),
        Err(CertifyRefusal::NoEnd(_)) => Err("a run without an end".into()),
    }
}

/// A ring behind an outlet: its first cell in row order is the first whose run doesn't end.
#[test]
fn tells_the_first_run_without_an_end(rt: HostRuntime) -> Result<(), Fail> {
    let Some(shape) = Shape::new(2, 3) else {
        return Err("a shape".into());
    };
    let flows = [
        Flow::Ends,
        Flow::ToSouth,
        Flow::ToWest,
        Flow::ToNorth,
        Flow::ToEast,
        Flow::ToWest,
    ];
    match derive_from_flows(rt.alloc(), &flows, shape) {
        Err(CertifyRefusal::NoEnd(cell)) => {
            assert_eq!(rt; (cell.row, cell.col), (0, 1));
            Ok(())
        }
        Err(CertifyRefusal::OutOfMemory) => Err("failed OutOfMemory".into()),
        Ok(_) => Err("every run ends".into()),
    }
}
