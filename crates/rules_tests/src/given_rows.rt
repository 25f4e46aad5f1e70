//! Three rows of 600 columns, from numbers: with lanes of these, and without.

use crate::part_rows::{Ground, Kinds, PartRow, PartRows};
use drain_grid::{Judged, NoData, Rules, Sinks};
use drain_kernel::{Lanes, Slopes};
use drain_rules::{RowView, ThreeRows};
use std::alloc::{AllocError, Global};
use std::test::Fail;
use worked::shafts::Shafts;

/// How many columns there are.
pub const COLS: u16 = 600;

/// Which columns of each row are listed.
pub(crate) type Marks = [[bool; 600]; 3];

/// The marks of the rows.
pub(crate) fn marks_of(sinks: &Sinks) -> Marks {
    let mut first = [false; 600];
    sinks.mark_row(0, &mut first);
    let mut second = [false; 600];
    sinks.mark_row(1, &mut second);
    let mut third = [false; 600];
    sinks.mark_row(2, &mut third);
    [first, second, third]
}

/// The numbers of three level rows with no listed cell.
pub fn level_rows(alloc: Global) -> Result<Vec<i64>, AllocError> {
    let shafts = Shafts {
        rows: 3,
        cols: COLS,
        listed: &[],
    };
    shafts.numbers(alloc)
}

/// What the rows are made of. The lanes of their numbers are taken, or they aren't.
#[derive(Clone, Copy)]
pub(crate) struct Given<'a> {
    pub(crate) alloc: Global,
    pub(crate) numbers: &'a [i64],
    pub(crate) marks: &'a Marks,
    pub(crate) ground: Ground,
    pub(crate) kinds: Kinds,
    pub(crate) judged: Judged,
    pub(crate) is_laned: bool,
}

impl<'a> Given<'a> {
    /// The numbers of a row, none of no row.
    fn row(&self, row: Option<u8>) -> Result<PartRow, Fail> {
        let parts = PartRows {
            numbers: self.numbers,
            rows: 3,
            cols: COLS,
            ground: self.ground,
        };
        PartRow::new(self.alloc, parts, row, self.kinds)
    }

    /// The marks of a row, none of no row.
    fn marks(&self, row: Option<u8>) -> &'a [bool] {
        let marks = self.marks;
        match row {
            Some(row) if row < 3 => &marks[row as usize],
            _ => &[],
        }
    }
}

/// The row above, a row, and the one below.
pub(crate) type Numbers = [PartRow; 3];

/// The rows above a row and below it, if there are any.
fn beside(row: u8) -> (Option<u8>, Option<u8>) {
    (
        row.checked_sub(1),
        if row < 2 { Some(row + 1) } else { None },
    )
}

/// What was made before with what was made now, or why that couldn't be. Here the first is dropped by one call; where its
/// type is known each way out of a function takes the steps of each of its members, in the proof too.
fn with<A: Drop, B>(before: A, now: Result<B, Fail>) -> Result<(A, B), Fail> {
    match now {
        Ok(now) => Ok((before, now)),
        Err(fault) => Err(fault),
    }
}

/// The numbers of a row with those above and below it.
pub(crate) fn numbers_round(given: Given<'_>, row: u8) -> Result<Numbers, Fail> {
    let (above, below) = beside(row);
    let above = given.row(above)?;
    let (above, here) = with(above, given.row(Some(row)))?;
    let ((above, here), below) = with((above, here), given.row(below))?;
    Ok([above, here, below])
}

/// Room for the lanes of three rows.
#[derive(Drop)]
pub(crate) struct Room {
    above: Lanes,
    here: Lanes,
    below: Lanes,
}

impl Room {
    /// No row. This takes no memory.
    pub(crate) fn new(alloc: Global) -> Room {
        Room {
            above: Lanes::new(alloc),
            here: Lanes::new(alloc),
            below: Lanes::new(alloc),
        }
    }
}

/// A row with its marks, and with its lanes if they are taken; no row has none.
fn row_view<'a>(
    given: Given<'a>,
    numbers: &'a PartRow,
    slopes: &'a Slopes,
    row: Option<u8>,
    lanes: &'a mut Lanes,
) -> RowView<'a> {
    let lanes = if given.is_laned && row.is_some() {
        Some(lanes)
    } else {
        None
    };
    numbers.view(given.marks(row), slopes, given.judged, lanes)
}

/// A row with those above and below it.
pub(crate) fn three_rows<'a>(
    given: Given<'a>,
    numbers: &'a Numbers,
    slopes: &'a Slopes,
    row: u8,
    room: &'a mut Room,
) -> ThreeRows<'a> {
    let (above, below) = beside(row);
    ThreeRows {
        above: row_view(given, &numbers[0], slopes, above, &mut room.above),
        here: row_view(given, &numbers[1], slopes, Some(row), &mut room.here),
        below: row_view(given, &numbers[2], slopes, below, &mut room.below),
    }
}

/// The rules of a check with the default no-data numbers.
pub(crate) fn rules_about(judged: Judged) -> Rules {
    let nodata = NoData::defaults();
    Rules { nodata, judged }
}
