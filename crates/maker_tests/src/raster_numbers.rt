//! The numbers of a small raster.

use drain_grid::{Cell, Raster};

/// The most numbers of a product here.
const ROOM: usize = 25;

/// The numbers of a product in row order. They own no memory, so that a test with some is cheap to prove.
#[derive(Clone, Copy)]
pub struct Numbers {
    pub list: [i64; ROOM],
    pub count: usize,
}

impl Numbers {
    /// The numbers of a raster.
    pub fn of(raster: &Raster) -> Numbers {
        let shape = raster.shape();
        let mut list = [0; ROOM];
        let mut count: usize = 0;
        for row in 0..shape.rows() {
            for col in 0..shape.cols() {
                if let Some(place) = list.get_mut(count) {
                    *place = raster.value(Cell { row, col });
                }
                count = count.saturating_add(1);
            }
        }
        Numbers { list, count }
    }

    /// The numbers; none if there are more than there is room for.
    pub fn as_slice(&self) -> &[i64] {
        self.list.get(..self.count).unwrap_or(&[])
    }
}
