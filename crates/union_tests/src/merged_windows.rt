//! The windows of a union of 4 rows and 4 columns: boxes of 3 rows and 3 columns that overlap by two, and narrow ones.

use drain_grid::{Cell, NoData, Rule, Spacing};
use drain_union::{
    AuditNoData, Fault, InnerSides, Outlet, Place, Report, SEAM_DEPTH, SeamValues, Shown,
    UnionCounts, UnionGrid, UnionSize, UnionVerdict, WindowReport,
};
use std::alloc::{AllocError, Global};
use std::test::Fail;

/// The size of the union.
pub const SIZE: UnionSize = UnionSize { rows: 4, cols: 4 };

/// The line of its four windows as they are below.
pub const WHOLE: &str = "accepted rows=4 cols=4 data=16 raised=4 outlets=4";

/// What a window reports, in rows and columns of the union.
#[derive(Clone, Copy)]
pub struct Window {
    /// The grid whose rows and columns count.
    pub grid: UnionGrid,
    /// The no-data numbers of its conditioned elevations, and of ranks.
    pub nodata: (i16, i16),
    /// Its first row and its first column.
    pub first: (u32, u32),
    /// How many rows and columns it has.
    pub size: (u32, u32),
    /// A letter for each inner side.
    pub inner: &'static str,
    /// The cell of the window at which the slope is wrong, if there is one.
    pub fault: Option<(u32, u32)>,
    /// Its data cells, raised cells and outlets.
    pub counts: (u64, u64, u64),
    /// The label of its outlet, and the cell.
    pub label: i64,
    pub outlet: (u32, u32),
    /// The accumulation that it shows along its seams.
    pub acc: i64,
    /// The spacings of its rows, as it lists them.
    pub spacings: &'static [(u32, u32)],
    /// The listed sinks that it took.
    pub sinks: &'static [(u32, u32)],
}

/// The window in the north-west of the union.
pub const NW: Window = Window {
    grid: UnionGrid::Tiles(3),
    nodata: (-32768, 0),
    first: (0, 0),
    size: (3, 3),
    inner: "se",
    fault: None,
    counts: (4, 1, 1),
    label: 1,
    outlet: (0, 0),
    acc: 7,
    spacings: &[],
    sinks: &[],
};

/// The window in the north-east.
pub const NE: Window = Window {
    first: (0, 1),
    inner: "sw",
    label: 2,
    outlet: (0, 3),
    ..NW
};

/// The window in the south-west.
pub const SW: Window = Window {
    first: (1, 0),
    inner: "ne",
    label: 3,
    outlet: (3, 0),
    ..NW
};

/// The window in the south-east.
pub const SE: Window = Window {
    first: (1, 1),
    inner: "nw",
    label: 4,
    outlet: (3, 3),
    ..NW
};

/// The first column, in a window of two.
pub const COLUMN: Window = Window {
    size: (4, 2),
    inner: "e",
    ..NW
};

/// The other columns, in a window of all four.
pub const REST: Window = Window {
    size: (4, 4),
    inner: "w",
    counts: (12, 3, 3),
    label: 2,
    outlet: (0, 3),
    ..NW
};

/// Two rows between windows, of which it judges none.
pub const RINGS: Window = Window {
    first: (1, 0),
    size: (2, 4),
    inner: "ns",
    counts: (0, 0, 0),
    ..NW
};

/// The reports on these windows of a union that begins at this cell of a map.
pub fn reports(alloc: Global, origin: Cell, windows: &[Window]) -> Result<Vec<WindowReport>, Fail> {
    let mut reports = Vec::new(alloc);
    for window in windows {
        reports.push(window.report(alloc, origin)?)?;
    }
    Ok(reports)
}

impl Window {
    /// The report on this window of a union that begins at this cell of a map.
    fn report(&self, alloc: Global, origin: Cell) -> Result<WindowReport, Fail> {
        let first = at(origin, self.first);
        let place = Place {
            top: first.row,
            left: first.col,
            extent: UnionSize {
                rows: self.size.0,
                cols: self.size.1,
            },
            inner: self.inner(),
        };
        let report = match self.fault {
            None => self.accepted(alloc, origin, place)?,
            Some(_) => self.rejected(alloc, place)?,
        };
        Ok(WindowReport {
            grid: self.grid,
            tiles: Vec::new(alloc),
            verdict: self.verdict(),
            report,
        })
    }

    fn inner(&self) -> InnerSides {
        InnerSides {
            north: self.inner.contains('n'),
            south: self.inner.contains('s'),
            west: self.inner.contains('w'),
            east: self.inner.contains('e'),
        }
    }

    fn verdict(&self) -> UnionVerdict {
        let (data_cells, raised, outlets) = self.counts;
        match self.fault {
            None => UnionVerdict::Accepted(UnionCounts {
                rows: self.size.0,
                cols: self.size.1,
                data_cells,
                raised,
                outlets,
            }),
            Some((row, col)) => UnionVerdict::Rejected(Fault {
                cell: Cell { row, col },
                rule: Rule::Slope,
            }),
        }
    }

    fn nodata(&self) -> AuditNoData {
        let mut nodata = NoData::defaults();
        nodata.con = i64::from(self.nodata.0);
        nodata.rnk = i64::from(self.nodata.1);
        AuditNoData::of(nodata)
    }

    fn accepted(&self, alloc: Global, origin: Cell, place: Place) -> Result<Report, Fail> {
        Ok(Report {
            place,
            spacings: spacings(alloc, self.spacings)?,
            nodata: self.nodata(),
            holds: true,
            outlets: self.outlets(alloc, origin)?,
            seams: seams(alloc, &place, self.acc)?,
            sinks: cells(alloc, origin, self.sinks)?,
        })
    }

    fn rejected(&self, alloc: Global, place: Place) -> Result<Report, Fail> {
        Ok(Report {
            place,
            spacings: spacings(alloc, self.spacings)?,
            nodata: self.nodata(),
            holds: false,
            outlets: Vec::new(alloc),
            seams: Vec::new(alloc),
            sinks: Vec::new(alloc),
        })
    }

    fn outlets(&self, alloc: Global, origin: Cell) -> Result<Vec<Outlet>, AllocError> {
        let mut outlets = Vec::new(alloc);
        outlets.push(Outlet {
            label: self.label,
            cell: at(origin, self.outlet),
        })?;
        Ok(outlets)
    }
}

/// What a window shows along its seams: this accumulation.
fn seams(alloc: Global, place: &Place, acc: i64) -> Result<Vec<Shown>, Fail> {
    let Some(values) = SeamValues::of_height(Some(5), false, 5, 1, acc, 1) else {
        return Err(Fail::new("values"));
    };
    let first = Cell {
        row: place.top,
        col: place.left,
    };
    let mut seams = Vec::new(alloc);
    for row in 0..place.extent.rows() {
        for col in 0..place.extent.cols() {
            if place.is_on_seam(SEAM_DEPTH, Cell { row, col }) {
                let cell = at(first, (row, col));
                seams.push(Shown { cell, values })?;
            }
        }
    }
    Ok(seams)
}

/// These widths and heights as spacings.
pub fn spacings(alloc: Global, sizes: &[(u32, u32)]) -> Result<Vec<Spacing>, Fail> {
    let mut spacings = Vec::new(alloc);
    for &(width, height) in sizes {
        let Some(spacing) = Spacing::new(width, height) else {
            return Err(Fail::new("a spacing"));
        };
        spacings.push(spacing)?;
    }
    Ok(spacings)
}

/// The map's cells of these cells of a union.
fn cells(alloc: Global, origin: Cell, places: &[(u32, u32)]) -> Result<Vec<Cell>, AllocError> {
    let mut cells = Vec::new(alloc);
    for place in places {
        cells.push(at(origin, *place))?;
    }
    Ok(cells)
}

/// The map's cell in this row and column from the first one.
fn at(first: Cell, (row, col): (u32, u32)) -> Cell {
    Cell {
        row: first.row.saturating_add(row),
        col: first.col.saturating_add(col),
    }
}
