//! Which cells of the rows that were taken so far have data, and their conditioned elevations.

ghost use Rattle.std.specs.Prelude.{◌≡◌, ◌*◌};
ghost use Rattle.drain_filled.specs.Names.{IfSome, IsSome, OnErr, OnOk, [], vec_len, Grid, Products};
ghost use Rattle.drain_filled.specs.ConRows.{AreFirstCon, IsGroundAndCon, with_row};

use crate::ground::Ground;
use crate::kept_rows::{push_marks, push_numbers};
use crate::surfaces::Surfaces;
use drain_grid::{OutOfMemory, Rules, Shape};
use drain_pixels::{GroundRow, PixelRow};
use drain_rows::{RowBuffer, RowVisitor};
use drain_rules::ThreeRows;
use std::alloc::Global;
use std::marker::Model;

impl RowVisitor for ConRows {
    ghost use Rattle.std.specs.Prelude.{true};
    ghost use Rattle.drain_filled.specs.ConRows.{AreFirstCon};

    ghost counts = { λ n lists. Unit {0} };

    ghost are_of = { λ rules g ps rows lists. AreFirstCon g ps rows lists };

    ghost wants = { λ rules g ps. Unit {0} };

    ghost lasting = { λ lists. true };

    fn note(
        &mut self,
        row: &RowBuffer,
        _rows: &ThreeRows<'_>,
        _rules: &Rules,
    ) -> Result<(), OutOfMemory> {
        self.push_row(&row.z, &row.products.con)
    }
}

/// Whether there is data, and the conditioned elevation, of each cell that was taken so far, in row order.
#[derive(Drop)]
pub struct ConRows {
    marks: Vec<u8>,
    con: Vec<i64>,
}

impl Model for ConRows {
    ghost use Rattle.drain_filled.specs.ConRows.{ConLists};

    ghost Value = { ConLists };

    ghost view = { λ rows. record { marks = rows.marks.items; con = rows.con.items } };
}

impl ConRows {
    /// No cell. This takes no memory.
    pub fn new(alloc: Global) -> ConRows
        ensures none { result ≡ record { marks = []; con = [] } }
        ensures begun { (g : Grid) (ps : Products) → AreFirstCon g ps 0 result }
    {
        ConRows {
            marks: Vec::new(alloc),
            con: Vec::new(alloc),
        }
    }

    /// Takes the next row: each cell's elevation and conditioned elevation. Without memory nothing is changed.
    pub fn push_row(&mut self, z: &GroundRow, con: &PixelRow) -> Result<(), OutOfMemory>
        ensures taken { OnOk result (self.new ≡ with_row self.old z.now con.now) }
        ensures kept { OnErr result (self.new ≡ self.old) }
    {
        let before = self.marks.len();
        push_marks(&mut self.marks, z)?;
        if push_numbers(&mut self.con, con).is_err() {
            self.marks.truncate(before);
            return Err(OutOfMemory);
        }
        Ok(())
    }

    /// The cells with data and the conditioned elevations of a grid of this shape, if each of its cells was taken and no
    /// other.
    pub fn into_parts(self, shape: Shape) -> Option<Surfaces>
        ensures all { (g : Grid) (ps : Products) → g.extent ≡ shape → AreFirstCon g ps shape.rows self → IsSome result }
        ensures parts { IfSome result (λ both. (g : Grid) (ps : Products) → g.extent ≡ shape → AreFirstCon g ps shape.rows self → IsGroundAndCon g ps both.ground both.con.items) }
        ensures extent { IfSome result (λ both. both.ground.extent ≡ shape) }
        ensures counted { IfSome result (λ both. vec_len both.con ≡ shape.rows * shape.cols) }
    {
        let cells = shape.cells();
        if self.marks.len() != cells || self.con.len() != cells {
            return None;
        }
        Some(Surfaces {
            ground: Ground::new(shape, self.marks),
            con: self.con,
        })
    }
}
