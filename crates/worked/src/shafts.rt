//! Level grids at elevation 0 with simple right products: each cell inside drains north, to the edge or a listed cell.

use std::alloc::{AllocError, Global};

/// A level grid of at least one row and column, and which of its cells are listed, each by its row and column.
#[derive(Clone, Copy)]
pub struct Shafts<'a> {
    pub rows: u8,
    pub cols: u16,
    pub listed: &'a [(u8, u16)],
}

impl<'a> Shafts<'a> {
    /// Whether a cell lies inside, off the edge of the grid.
    pub fn is_inside(&self, row: u8, col: u16) -> bool {
        0 < row && row.saturating_add(1) < self.rows && 0 < col && col.saturating_add(1) < self.cols
    }

    /// Whether a cell drains north: it isn't open.
    fn drains_north(&self, row: u8, col: u16) -> bool {
        self.is_inside(row, col) && !self.listed.iter().any(|cell| *cell == (row, col))
    }

    /// How many steps north it is from a cell to its outlet.
    fn steps(&self, row: u8, col: u16) -> u8 {
        for up in 0..row {
            if !self.drains_north(row.saturating_sub(up), col) {
                return up;
            }
        }
        row
    }

    /// How many cells drain through a cell, itself among them.
    fn upstream(&self, row: u8, col: u16) -> u8 {
        for down in 1..self.rows {
            if !self.drains_north(row.saturating_add(down), col) {
                return down;
            }
        }
        self.rows
    }

    /// The label of a cell: the place of its outlet, counted from 1.
    fn label(&self, row: u8, col: u16) -> i64 {
        let outlet = row.saturating_sub(self.steps(row, col));
        i64::from(outlet) * i64::from(self.cols) + i64::from(col) + 1
    }

    /// The number of a cell in a part: of the elevations, con, dir, acc, bas and rnk.
    fn number(&self, part: u8, row: u8, col: u16) -> i64 {
        match part {
            2 if self.drains_north(row, col) => 64,
            3 => self.upstream(row, col).into(),
            4 => self.label(row, col),
            5 => self.steps(row, col).into(),
            _ => 0,
        }
    }

    /// The parts one after the other, each in row order.
    pub fn numbers(&self, alloc: Global) -> Result<Vec<i64>, AllocError> {
        let mut numbers = Vec::new(alloc);
        for part in 0..6 {
            for row in 0..self.rows {
                for col in 0..self.cols {
                    numbers.push(self.number(part, row, col))?;
                }
            }
        }
        Ok(numbers)
    }
}
