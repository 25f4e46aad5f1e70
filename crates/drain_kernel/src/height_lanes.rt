//! The heights of a row, in 16 bits or in 32.

ghost use Rattle.std.specs.Prelude.{◌≡◌};
ghost use Rattle.drain_kernel.specs.Names.{IsTrue, false, length, map, vec_len, AreElevationLanes, AreHeightLanes};

use drain_pixels::row_lanes::HeightLane;
use drain_pixels::{GroundRow, PixelRow};
use std::alloc::Global;

/// A row's elevations and con, with the bias of their width added; z is 0 at a void.
#[derive(Drop)]
pub struct HeightLanes<H> {
    pub(crate) z: Vec<H>,
    pub(crate) con: Vec<H>,
    ghost con_len: { vec_len con ≡ vec_len z },
}

impl<H: HeightLane> HeightLanes<H> {
    /// No row. It takes no memory.
    pub fn new(alloc: Global) -> HeightLanes<H>
        ensures { vec_len result.z ≡ 0 }
    {
        HeightLanes {
            z: Vec::new(alloc),
            con: Vec::new(alloc),
        }
    }

    /// Forgets the row, and keeps its memory.
    pub fn clear(&mut self)
        ensures { vec_len self.new.z ≡ 0 }
    {
        self.z.clear();
        self.con.clear();
    }

    /// Replaces the row by these numbers, and returns whether they fit and memory sufficed; else it has no row.
    pub fn take(&mut self, z: &GroundRow, con: &PixelRow) -> bool
        requires { length con.now ≡ length z.now }
        ensures len { IsTrue result → vec_len self.new.z ≡ length z.now }
        ensures elevations { IsTrue result → AreElevationLanes H.bias z.now (map H.number self.new.z.items) (length z.now) }
        ensures con { IsTrue result → AreHeightLanes H.bias (map H.number self.new.z.items) con.now (map H.number self.new.con.items) (length z.now) }
        ensures none { result ≡ false → vec_len self.new.z ≡ 0 }
    {
        let fit = H::take_elevations(z, &mut self.z)
            && H::take_heights(&self.z, con, &mut self.con);
        if !fit {
            self.z.clear();
            self.con.clear();
        }
        fit
    }
}
