//! The numbers of a row's products, but con: in 16 bits where that is enough, else in 32.

ghost use Rattle.std.specs.Prelude.{◌≡◌};
ghost use Rattle.drain_kernel.specs.Names.{IsTrue, false, length, map, vec_len, IfJudged, has_rnk, AreCapped, AreLanes};
ghost use Rattle.drain_kernel.specs.Images.{AreRankLanes};

use drain_grid::{Judged, PerProduct};
use drain_pixels::PixelRow;
use drain_pixels::lane::ElevationLane;
use drain_pixels::row_lanes::{take_capped, take_halves, take_numbers, take_short_numbers};
use std::alloc::Global;

/// The numbers of a row, next to each other for each column. Ranks are kept if they are judged. At a void a lane may be
/// any number; it is ignored. Accumulations and ranks are there once more in 16 bits, 65535 where they are more, and
/// ranks also by their halves.
#[derive(Drop)]
pub struct ProductLanes {
    pub(crate) dir: Vec<u16>,
    pub(crate) acc: Vec<u32>,
    pub(crate) bas: Vec<u32>,
    pub(crate) rnk: Vec<u32>,
    pub(crate) capped_acc: Vec<u16>,
    pub(crate) capped_rnk: Vec<u16>,
    pub(crate) low_rnk: Vec<u16>,
    pub(crate) high_rnk: Vec<u16>,
    ghost acc_len: { vec_len acc ≡ vec_len dir },
    ghost bas_len: { vec_len bas ≡ vec_len dir },
    ghost capped_acc_len: { vec_len capped_acc ≡ vec_len acc },
    ghost acc_is_capped: { AreCapped acc.items capped_acc.items (vec_len acc) },
    ghost ranks_match: { AreRankLanes (vec_len rnk) (vec_len capped_rnk) (vec_len low_rnk) (vec_len high_rnk) rnk.items capped_rnk.items low_rnk.items high_rnk.items },
}

impl ProductLanes {
    ghost use Rattle.drain_kernel.specs.Names.{SetProduct, of_product};

    /// No row. It takes no memory.
    pub fn new(alloc: Global) -> ProductLanes
        ensures { vec_len result.dir ≡ 0 }
    {
        ProductLanes {
            dir: Vec::new(alloc),
            acc: Vec::new(alloc),
            bas: Vec::new(alloc),
            rnk: Vec::new(alloc),
            capped_acc: Vec::new(alloc),
            capped_rnk: Vec::new(alloc),
            low_rnk: Vec::new(alloc),
            high_rnk: Vec::new(alloc),
        }
    }

    /// Forgets the row, and keeps its memory.
    pub fn clear(&mut self)
        ensures { vec_len self.new.dir ≡ 0 }
    {
        self.dir.clear();
        self.acc.clear();
        self.bas.clear();
        self.rnk.clear();
        self.capped_acc.clear();
        self.capped_rnk.clear();
        self.low_rnk.clear();
        self.high_rnk.clear();
    }

    /// Replaces the row by these numbers, with ranks if they are judged, and returns whether it has them now. At each
    /// column but voids dir must fit 16 unsigned bits, and the others 32; memory is taken if there is too little room.
    /// Else it has no row.
    pub fn take<Z: ElevationLane>(
        &mut self,
        z: &[Z],
        products: &PerProduct<&PixelRow>,
        judged: Judged,
    ) -> bool
        requires { (p : SetProduct) → length (of_product products.now p).now ≡ length z.now }
        ensures len { IsTrue result → vec_len self.new.dir ≡ length z.now }
        ensures dir { IsTrue result → AreLanes (map Z.number z.now) products.now.dir.now self.new.dir.items (length z.now) }
        ensures acc { IsTrue result → AreLanes (map Z.number z.now) products.now.acc.now self.new.acc.items (length z.now) }
        ensures bas { IsTrue result → AreLanes (map Z.number z.now) products.now.bas.now self.new.bas.items (length z.now) }
        ensures rnk { IsTrue result → vec_len self.new.rnk ≡ length z.now → AreLanes (map Z.number z.now) products.now.rnk.now self.new.rnk.items (length z.now) }
        ensures none { result ≡ false → vec_len self.new.dir ≡ 0 }
        ensures ranked { IsTrue result → IfJudged (has_rnk judged) (vec_len self.new.rnk ≡ length z.now) }
    {
        let fit = take_short_numbers(z, products.dir, &mut self.dir)
            & take_numbers(z, products.acc, &mut self.acc)
            & take_numbers(z, products.bas, &mut self.bas)
            & take_ranks(z, products.rnk, judged, &mut self.rnk)
            & take_capped(&self.acc, &mut self.capped_acc)
            & take_capped(&self.rnk, &mut self.capped_rnk)
            & take_halves(&self.rnk, &mut self.low_rnk, &mut self.high_rnk);
        if !fit {
            self.dir.clear();
            self.acc.clear();
            self.bas.clear();
            self.rnk.clear();
            self.capped_acc.clear();
            self.capped_rnk.clear();
            self.low_rnk.clear();
            self.high_rnk.clear();
        }
        fit
    }
}

/// Takes ranks if they are judged, else none.
fn take_ranks<Z: ElevationLane>(
    z: &[Z],
    numbers: &PixelRow,
    judged: Judged,
    out: &mut Vec<u32>,
) -> bool
    ensures len { IsTrue result → IfJudged (has_rnk judged) (vec_len out.new ≡ length numbers.now) }
    ensures lanes { IsTrue result → vec_len out.new ≡ length numbers.now → AreLanes (map Z.number z.now) numbers.now out.new.items (length numbers.now) }
{
    if judged.has_rnk() {
        take_numbers(z, numbers, out)
    } else {
        out.clear();
        true
    }
}
