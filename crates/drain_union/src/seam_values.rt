//! The numbers at a cell of a seam.

ghost use Rattle.std.specs.Prelude.{◌≡◌, ◌↔◌};
ghost use Rattle.drain_union.specs.Names.{IfSome, IsSome, IsTrue, AreInRange};
ghost use Rattle.drain_union.specs.SeamValues.{AreOfSeam, seam_values};

use drain_grid::CellValues;
use std::marker::Model;

/// The values at a cell as an audit has them: the elevation, whether the cell is a listed sink, and the numbers of con,
/// dir, acc and bas. There is no spill code, which counts as 0, and dir takes the place of the ranks.
#[derive(Clone, Copy, PartialEq, Eq, Debug)]
pub struct SeamValues {
    pub z: Option<i64>,
    pub sink: bool,
    pub con: i64,
    pub dir: i64,
    pub acc: i64,
    pub bas: i64,
}

impl Model for SeamValues {
    ghost use Rattle.drain_grid.specs.Values.{Values, AreInRange};
    ghost use Rattle.drain_union.specs.SeamValues.{seam_values};

    ghost Value = { Values };

    ghost view = { λ v. seam_values v.z v.sink v.con v.dir v.acc v.bas };

    ghost invariant = { λ v. AreInRange (seam_values v.z v.sink v.con v.dir v.acc v.bas) };

    ghost inverse = { λ v. record { z = v.z; sink = v.sink; con = v.con; dir = v.dir; acc = v.acc; bas = v.bas } };
}

impl SeamValues {
    /// Those of a cell, if they have no spill code, and dir in place of the rank.
    pub fn of(values: &CellValues) -> Option<SeamValues>
        ensures some { IsSome result ↔ AreOfSeam values.now }
        ensures value { IfSome result (λ v. v ≡ values.now) }
    {
        if values.spl == 0 && values.rnk == values.dir {
            Some(SeamValues {
                z: values.z,
                sink: values.sink,
                con: values.con,
                dir: values.dir,
                acc: values.acc,
                bas: values.bas,
            })
        } else {
            None
        }
    }

    /// Whether the two are the same.
    pub fn is(&self, other: &SeamValues) -> bool
        ensures { IsTrue result ↔ (self.now ≡ other.now) }
    {
        // That each has no other numbers than these.
        let _of_one = self.con;
        let _of_other = other.con;
        self == other
    }

    /// The values, if the elevation and each product's number can be a pixel.
    pub fn of_height(
        z: Option<i64>,
        sink: bool,
        con: i64,
        dir: i64,
        acc: i64,
        bas: i64,
    ) -> Option<SeamValues>
        ensures valid { IsSome result ↔ AreInRange (seam_values z sink con dir acc bas) }
        ensures value { IfSome result (λ v. v ≡ seam_values z sink con dir acc bas) }
    {
        match CellValues::of_height(z, sink, con, dir, acc, bas, 0, dir) {
            Some(_) => Some(SeamValues {
                z,
                sink,
                con,
                dir,
                acc,
                bas,
            }),
            None => None,
        }
    }
}
