//! A row of a grid and its products in memory that is used again for the next row.

ghost use Rattle.std.specs.Prelude.{◌≡◌, ◌↔◌, ◌||◌};
ghost use Rattle.drain_rows.specs.Names.{ℕ, [], false, slice_index_or, IsTrue, OnOk, OnErr, Cell, AreRowNumbers, blank, is_among, spacing_of};
ghost use Rattle.drain_rows.specs.RowBuffers.{LanesMatch};
ghost use Rattle.drain_rows.specs.GridRows.{is_listed_void};

use crate::listed_voids::ListedVoids;
use drain_grid::{Judged, OutOfMemory, PerProduct, Sinks, Spacing, Spacings};
use drain_kernel::{Lanes, Slopes};
use drain_pixels::{GroundRow, PixelRow};
use drain_rules::RowView;
use std::alloc::Global;

/// The elevations of one row, and each product's numbers, both empty if there is no row; marks at its listed sinks; how
/// far apart its cells are; and the numbers once more in lanes.
///
/// It may be filled one after the other. Only a whole row can be viewed: as many numbers of each. No marks mean
/// no sinks. Lanes are useful if the numbers fit them, and must be filled again for each row.
#[derive(Drop)]
pub struct RowBuffer {
    pub z: GroundRow,
    pub products: PerProduct<PixelRow>,
    pub sinks: Vec<bool>,
    slopes: Slopes,
    lanes: Lanes,
    fit: bool,
}

impl RowBuffer {
    ghost use Rattle.drain_rows.specs.RowBuffers.{IsEven, IsMarked, marked_of, buffer_numbers};

    /// No row. This needs no memory.
    pub fn new(alloc: Global) -> RowBuffer
        ensures numbers { buffer_numbers result ≡ blank }
        ensures lanes { LanesMatch result }
    {
        RowBuffer {
            z: GroundRow::new(alloc),
            products: PerProduct {
                con: PixelRow::new(alloc),
                dir: PixelRow::new(alloc),
                acc: PixelRow::new(alloc),
                bas: PixelRow::new(alloc),
                rnk: PixelRow::new(alloc),
            },
            sinks: Vec::new(alloc),
            slopes: Slopes::of(Spacing::unit()),
            lanes: Lanes::new(alloc),
            fit: false,
        }
    }

    /// Forgets the row, and keeps its memory.
    pub fn clear(&mut self)
        ensures { buffer_numbers self.new ≡ blank }
    {
        self.z.clear();
        self.products.con.clear();
        self.products.dir.clear();
        self.products.acc.clear();
        self.products.bas.clear();
        self.products.rnk.clear();
    }

    /// Whether there are as many numbers of each product as elevations.
    pub fn is_even(&self) -> bool
        ensures { IsTrue result ↔ IsEven (buffer_numbers self.now) }
    {
        let len = self.z.len();
        let products = &self.products;
        products.con.len() == len
            && products.dir.len() == len
            && products.acc.len() == len
            && products.bas.len() == len
            && products.rnk.len() == len
    }

    /// Marks the listed sinks of the row of this number, and notes those that are voids; and takes how far apart that
    /// row's cells are. Without sinks it needs no memory.
    pub fn mark(
        &mut self,
        row: u32,
        sinks: &Sinks,
        spacings: &Spacings,
        voids: &mut ListedVoids,
    ) -> Result<(), OutOfMemory>
        requires whole { AreRowNumbers (buffer_numbers self.old) }
        ensures numbers { buffer_numbers self.new ≡ buffer_numbers self.old }
        ensures marked { OnOk result (IsMarked sinks.now (spacing_of spacings.now) row (marked_of self.new)) }
        ensures noted { OnOk result ((c : Cell) → is_among voids.new c ≡ (is_among voids.old c || is_listed_void row (buffer_numbers self.new).z self.new.sinks.items c)) }
        ensures wants { OnErr result (¬ (sinks.now ≡ [])) }
    {
        self.space(spacings.of_row(row));
        if sinks.count() == 0 {
            self.sinks.clear();
            return Ok(());
        }
        self.sinks.resize(self.z.len(), false)?;
        sinks.mark_row(row, self.sinks.as_mut_slice());
        if !is_any_marked(self.sinks.as_slice()) {
            self.sinks.clear();
            return Ok(());
        }
        voids.note_row(row, &self.z, self.sinks.as_slice())
    }

    /// Takes how far apart its cells are. Where that is as in the row before, nothing is computed.
    fn space(&mut self, spacing: Spacing)
        ensures spaced { self.new.slopes.spacing ≡ spacing }
        ensures numbers { buffer_numbers self.new ≡ buffer_numbers self.old }
    {
        if self.slopes.spacing() != spacing {
            self.slopes = Slopes::of(spacing);
        }
    }

    /// Whether its heights are in lanes of 32 bits.
    pub fn is_wide(&self) -> bool {
        self.lanes.is_wide()
    }

    /// Fills the lanes of the row, for rules about these rasters: heights in 16 bits if these hold them and `wide` is
    /// false, else in 32.
    pub fn take_lanes(&mut self, judged: Judged, wide: bool)
        requires whole { AreRowNumbers (buffer_numbers self.old) }
        ensures marked { marked_of self.new ≡ marked_of self.old }
        ensures lanes { LanesMatch self.new }
    {
        let products = &self.products;
        let rows = PerProduct {
            con: &products.con,
            dir: &products.dir,
            acc: &products.acc,
            bas: &products.bas,
            rnk: &products.rnk,
        };
        self.fit = self.lanes.take(&self.z, &rows, judged, wide);
    }

    /// The row as it is looked at, with its lanes if they fit.
    pub fn view(&self) -> RowView<'_>
        requires numbers { AreRowNumbers (buffer_numbers self.now) }
        requires lanes { LanesMatch self.now }
        ensures { result ≡ marked_of self.now }
    {
        let lanes = if self.fit { Some(&self.lanes) } else { None };
        RowView::new(
            &self.z,
            self.sinks.as_slice(),
            &self.slopes,
            PerProduct {
                con: &self.products.con,
                dir: &self.products.dir,
                acc: &self.products.acc,
                bas: &self.products.bas,
                rnk: &self.products.rnk,
            },
            lanes,
        )
    }
}

/// Whether anything is marked. It has no branch, so that many marks are tested together.
fn is_any_marked(marks: &[bool]) -> bool
    ensures { result ≡ false → (place : ℕ) → slice_index_or marks.now place false ≡ false }
{
    let mut is_any = false;
    for mark in marks {
        is_any |= *mark;
    }
    is_any
}
