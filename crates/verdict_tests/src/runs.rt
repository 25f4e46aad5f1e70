//! Runs of a check or an audit over an example, and their lines.

use crate::example::Example;
use crate::inputs::{AtOnce, ConHeaded, Faulty, Reading, products, tiles};
use drain_answer::lines::Line;
use drain_device::ByteSource;
use drain_hgt::TileInput;
use drain_verdict::{
    AuditProducts, Given, Products, audit, audit_on, audit_report, check, check_on, report,
};
use std::alloc::{AllocError, Global};
use std::test::Fail;

/// What is run on an example.
#[derive(Clone, Copy)]
pub enum Checked {
    Check,
    /// The ranks aren't passed.
    Audit,
}

/// The line of a check.
pub fn line_of<R: ByteSource>(
    alloc: Global,
    example: &Example,
    tiles: &mut [TileInput<R>],
    products: &mut Products<R>,
) -> Line {
    let sinks = example.sinks.as_slice();
    report(&check(alloc, example.side, tiles, sinks, products))
}

fn without_ranks<R: Drop>(products: Products<R>) -> AuditProducts<R> {
    AuditProducts {
        con: products.con,
        dir: products.dir,
        acc: products.acc,
        bas: products.bas,
    }
}

/// The line of an audit.
fn audit_line_of<R: ByteSource>(
    alloc: Global,
    example: &Example,
    tiles: &mut [TileInput<R>],
    products: &mut AuditProducts<R>,
) -> Line {
    let sinks = example.sinks.as_slice();
    audit_report(&audit(alloc, example.side, tiles, sinks, products))
}

/// The line for these tiles and products, with the side and the list of the example.
fn answered<R: ByteSource + Drop>(
    alloc: Global,
    asked: Checked,
    example: &Example,
    tiles: &mut [TileInput<R>],
    mut products: Products<R>,
) -> Line {
    match asked {
        Checked::Check => line_of(alloc, example, tiles, &mut products),
        Checked::Audit => audit_line_of(alloc, example, tiles, &mut without_ranks(products)),
    }
}

fn told_of<'a, R: ByteSource + Drop, G: Reading<'a, R>>(
    alloc: Global,
    asked: Checked,
    headed: ConHeaded<'a>,
    reading: G,
) -> Result<Line, AllocError> {
    let mut tiles = tiles(alloc, headed.example.tiles(), reading)?;
    let products = products(alloc, headed, reading)?;
    Ok(answered(alloc, asked, headed.example, &mut tiles, products))
}

/// The line when sources give all bytes at once.
pub fn told_at_once(alloc: Global, asked: Checked, example: &Example) -> Result<Line, AllocError> {
    told_of(alloc, asked, ConHeaded::by_itself(example), AtOnce)
}

/// The same with this list of sinks, of cells that are so far apart.
pub fn told_given(
    alloc: Global,
    asked: Checked,
    example: &Example,
    given: &Given,
) -> Result<Line, AllocError> {
    let side = example.side;
    let mut tiles = tiles(alloc, example.tiles(), AtOnce)?;
    let mut five = products(alloc, ConHeaded::by_itself(example), AtOnce)?;
    Ok(match asked {
        Checked::Check => report(&check_on(alloc, &side, tiles.as_mut_slice(), given, &mut five)),
        Checked::Audit => {
            let mut four = without_ranks(five);
            audit_report(&audit_on(alloc, &side, tiles.as_mut_slice(), given, &mut four))
        }
    })
}

/// The line of a check whose sources give all bytes at once, with this header of con.
pub fn told_of_header(alloc: Global, example: &Example, header: &[u8]) -> Result<Line, AllocError> {
    let headed = ConHeaded { example, header };
    told_of(alloc, Checked::Check, headed, AtOnce)
}

/// The line when sources give one byte a call, and fault by this script.
pub fn told_slowly(
    alloc: Global,
    asked: Checked,
    example: &Example,
    faulty: Faulty,
) -> Result<Line, AllocError> {
    told_of(alloc, asked, ConHeaded::by_itself(example), faulty)
}

/// The line when sources never fault: the same whether they give all bytes at once or one byte a call.
pub fn told(alloc: Global, asked: Checked, example: &Example) -> Result<Line, Fail> {
    let line = told_at_once(alloc, asked, example)?;
    let slow = told_slowly(alloc, asked, example, Faulty::never())?;
    agreed(line, &slow)
}

/// The line when bytes come at once, if it is the same when they come one at a call, and doesn't say that memory ran
/// out.
fn agreed(line: Line, slow: &Line) -> Result<Line, Fail> {
    if wants_memory(&line) || wants_memory(slow) {
        return Err("failed OutOfMemory".into());
    }
    if slow.as_str() != line.as_str() {
        return Err("another line where bytes come one at a call".into());
    }
    Ok(line)
}

fn wants_memory(line: &Line) -> bool {
    line.as_str() == "failed OutOfMemory"
}
