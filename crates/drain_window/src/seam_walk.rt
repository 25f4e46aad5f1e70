//! What a window shows along its seams, noted row by row.

ghost use Rattle.std.specs.Prelude.{◌≡◌, ◌<◌, ◌≤◌, ◌+◌};
ghost use Rattle.drain_window.specs.Names.{ℕ, [], OnOk, MAX_LENGTH, IsOrigin, Grid, Products, IsOnSeam};
ghost use Rattle.drain_window.specs.SeamRows.{AddsSeams, EndsInRange, ListsSeamsAbove, OfSeamRow};
ghost use Rattle.drain_rules.specs.Rows.{AreRowPatches, place as cell_at};

use drain_grid::{Cell, NoData, OutOfMemory, Rules};
use drain_rows::{RowBuffer, RowVisitor};
use drain_rules::{PatchRow, ThreeRows};
use drain_union::{Place, SEAM_DEPTH, SeamValues, Shown};
use std::alloc::Global;

/// The window's place in the grid, the union's cell of the grid's first, the no-data numbers of the rules, how many rows
/// were passed, and what the window shows at the cells of its seams so far.
#[derive(Drop)]
pub struct SeamWalk {
    pub place: Place,
    pub origin: Cell,
    pub nodata: NoData,
    rows: u32,
    pub seams: Vec<Shown>,
    ghost placed: { EndsInRange place },
    ghost moved: { IsOrigin origin },
}

impl SeamWalk {
    ghost use Rattle.std.specs.Prelude.{◌≡◌, ◌<◌, ◌+◌};
    ghost use Rattle.drain_window.specs.Names.{ℕ, OnOk, MAX_LENGTH, Rules, Grid, Products, AreRowPatches, IsOrigin};
    ghost use Rattle.drain_window.specs.SeamRows.{EndsInRange};
    ghost use Rattle.drain_window.specs.WindowWalks.{IsSeamWalkOf};

    /// No row was passed. This takes no memory.
    pub fn new(alloc: Global, place: Place, origin: Cell) -> SeamWalk
        requires placed { EndsInRange place }
        requires moved { IsOrigin origin }
        ensures rows { result.rows ≡ 0 }
        ensures right { (rules : Rules) (g : Grid) (ps : Products) → IsSeamWalkOf rules g ps 0 result }
    {
        SeamWalk {
            place,
            origin,
            nodata: NoData::defaults(),
            rows: 0,
            seams: Vec::new(alloc),
        }
    }

    /// Takes the next row.
    pub fn take_row<R: PatchRow>(&mut self, patches: &R, rules: &Rules) -> Result<(), OutOfMemory>
        requires row { self.old.rows < MAX_LENGTH }
        ensures rows { OnOk result (self.new.rows ≡ self.old.rows + 1) }
        ensures right { OnOk result ((g : Grid) (ps : Products) (r : ℕ) → AreRowPatches g ps r (R.len patches.now) (R.shown patches.now)
            → IsSeamWalkOf rules.now g ps r self.old → IsSeamWalkOf rules.now g ps (r + 1) self.new) }
    {
        note_row(
            patches,
            &self.place,
            self.origin,
            self.rows,
            &mut self.seams,
        )?;
        self.nodata = rules.nodata;
        self.rows += 1;
        Ok(())
    }
}

/// Lists what is shown at the cells of seams in the row of the grid with this number.
fn note_row<R: PatchRow>(
    patches: &R,
    place: &Place,
    origin: Cell,
    row: u32,
    seams: &mut Vec<Shown>,
) -> Result<(), OutOfMemory>
    requires placed { EndsInRange place.now }
    requires moved { IsOrigin origin }
    ensures { OnOk result ((g : Grid) (ps : Products) → AreRowPatches g ps row (R.len patches.now) (R.shown patches.now) → place.now.left + place.now.extent.cols ≤ g.extent.cols
        → ListsSeamsAbove origin place.now g ps row seams.old.items → ListsSeamsAbove origin place.now g ps (row + 1) seams.new.items) }
{
    let top = place.top;
    if row < top || row - top >= place.extent.rows() {
        return Ok(());
    }
    note_seams(patches, place, origin, row - top, seams)
}

/// Lists what is shown at the cells of seams in a row of the box. A cell with values other than an audit's, which never
/// comes, is out of memory here.
fn note_seams<R: PatchRow>(
    patches: &R,
    place: &Place,
    origin: Cell,
    row: u32,
    seams: &mut Vec<Shown>,
) -> Result<(), OutOfMemory>
    requires row { row < place.now.extent.rows }
    requires placed { EndsInRange place.now }
    requires moved { IsOrigin origin }
    ensures { OnOk result (OfSeamRow place.now row (R.len patches.now) (R.shown patches.now) (λ g ps. AddsSeams origin place.now g ps row place.now.extent.cols seams.old.items seams.new.items)) }
{
    let top = place.top;
    let left = place.left;
    let width = place.extent.cols();
    let end = width.min(patches.cols().saturating_sub(left));
    let mut col = 0;
    while col < end {
        if place.is_on_seam(SEAM_DEPTH, Cell { row, col }) {
            let patch = patches.patch(left + col);
            let cell = Cell {
                row: origin.row + top + row,
                col: origin.col + left + col,
            };
            let Some(values) = SeamValues::of(&patch.here) else {
                return Err(OutOfMemory);
            };
            seams.push(Shown { cell, values })?;
        }
        col = seam_from(place, row, col + 1, end);
    }
    Ok(())
}

/// A column to go on from, at most `end`: the cells of the row from `col` up to it lie on no seam.
fn seam_from(place: &Place, row: u32, col: u32, end: u32) -> u32
    requires { col ≤ end }
    ensures forward { col ≤ result }
    ensures within { result ≤ end }
    ensures off { (k : ℕ) → col ≤ k → k < result → ¬ IsOnSeam SEAM_DEPTH place.now (cell_at row k) }
{
    let rows = place.extent.rows();
    let inner = place.inner;
    let beside_rows = (inner.north && row < SEAM_DEPTH)
        || (inner.south && rows <= row.saturating_add(SEAM_DEPTH));
    if beside_rows || col < SEAM_DEPTH {
        return col;
    }
    let east = place.extent.cols().saturating_sub(SEAM_DEPTH);
    col.max(east).min(end)
}

impl RowVisitor for SeamWalk {
    ghost use Rattle.std.specs.Prelude.{◌≡◌, true};
    ghost use Rattle.drain_window.specs.WindowWalks.{IsSeamWalkOf};

    ghost counts = { λ n walk. walk.rows ≡ n };

    ghost are_of = { λ rules g ps rows walk. IsSeamWalkOf rules g ps rows walk };

    ghost wants = { λ rules g ps. Unit {0} };

    ghost lasting = { λ walk. true };

    fn note(
        &mut self,
        _row: &RowBuffer,
        rows: &ThreeRows<'_>,
        rules: &Rules,
    ) -> Result<(), OutOfMemory> {
        self.take_row(rows, rules)
    }
}
