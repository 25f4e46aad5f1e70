//! How far apart neighbours are in each row of a grid.
//!
//! Rows are listed from the north. All others have one spacing, so that of square cells needs no list.

ghost use Rattle.std.specs.Prelude.{◌≡◌, ℕ, [], length};
ghost use Rattle.drain_grid.specs.Spacing.{of_kind, spacing_of, unit_spacing};

use crate::height_kind::HeightKind;
use crate::spacing::Spacing;
use std::alloc::Global;
use std::marker::Model;

/// The spacing of the first rows, and that of each other row. A row listed takes 8 bytes.
#[derive(Drop)]
pub struct Spacings {
    listed: Vec<Spacing>,
    otherwise: Spacing,
}

impl Model for Spacings {
    ghost use Rattle.drain_grid.specs.Spacing.{RowSpacings};

    ghost Value = { RowSpacings };

    ghost view = { λ s. record { listed = s.listed.items; otherwise = s.otherwise } };
}

impl Spacings {
    /// One spacing for all rows. This takes no memory.
    pub fn same(alloc: Global, spacing: Spacing) -> Spacings
        ensures { result ≡ record { listed = []; otherwise = spacing } }
    {
        Spacings {
            listed: Vec::new(alloc),
            otherwise: spacing,
        }
    }

    /// These for the first rows, and for each other row that of square cells.
    pub(crate) fn of(rows: Vec<Spacing>) -> Spacings
        ensures { result ≡ record { listed = rows.items; otherwise = unit_spacing } }
    {
        Spacings {
            listed: rows,
            otherwise: Spacing::unit(),
        }
    }

    /// The same for heights of this kind.
    pub fn of_kind(self, kind: HeightKind) -> Spacings
        ensures rows { (row : ℕ) → spacing_of result row ≡ of_kind kind (spacing_of self row) }
        ensures listed { length result.listed ≡ length self.listed }
    {
        let mut listed = self.listed;
        for k in 0..listed.len() {
            listed[k] = listed[k].of_kind(kind);
        }
        Spacings {
            listed,
            otherwise: self.otherwise.of_kind(kind),
        }
    }

    /// How far apart the cells of a row are from their neighbours.
    pub fn of_row(&self, row: u32) -> Spacing
        ensures { result ≡ spacing_of self.now row }
    {
        match self.listed.get(row as usize) {
            Some(spacing) => *spacing,
            None => self.otherwise,
        }
    }

    /// How many rows are listed.
    pub fn listed_rows(&self) -> usize
        ensures { result ≡ length self.now.listed }
    {
        self.listed.len()
    }
}
