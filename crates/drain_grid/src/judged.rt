//! Which rasters of a set are judged, and by which rules.

ghost use Rattle.std.specs.Prelude.{◌≡◌};
ghost use Rattle.drain_grid.specs.Judged.{has_acc, has_bas, has_dir, has_product, has_rnk};

use crate::nodata::NoData;
use crate::set_product::SetProduct;

/// Which rasters of a set are judged: the filled surface alone; with directions, and maybe with accumulation or labels;
/// all four; or these with ranks.
#[derive(Clone, Copy, PartialEq, Eq, Debug)]
pub enum Judged {
    Con,
    ConDir,
    ConDirAcc,
    ConDirBas,
    All,
    AllWithRanks,
}

impl Judged {
    /// Whether directions are judged.
    #[inline(always)]
    pub fn has_dir(self) -> bool
        ensures { result ≡ has_dir self }
    {
        match self {
            Judged::Con => false,
            Judged::ConDir
            | Judged::ConDirAcc
            | Judged::ConDirBas
            | Judged::All
            | Judged::AllWithRanks => true,
        }
    }

    /// Whether the accumulation is judged.
    #[inline(always)]
    pub fn has_acc(self) -> bool
        ensures { result ≡ has_acc self }
    {
        match self {
            Judged::ConDirAcc | Judged::All | Judged::AllWithRanks => true,
            Judged::Con | Judged::ConDir | Judged::ConDirBas => false,
        }
    }

    /// Whether labels are judged.
    #[inline(always)]
    pub fn has_bas(self) -> bool
        ensures { result ≡ has_bas self }
    {
        match self {
            Judged::ConDirBas | Judged::All | Judged::AllWithRanks => true,
            Judged::Con | Judged::ConDir | Judged::ConDirAcc => false,
        }
    }

    /// Whether ranks are judged. Without them it has to be known otherwise that paths end.
    #[inline(always)]
    pub fn has_rnk(self) -> bool
        ensures { result ≡ has_rnk self }
    {
        match self {
            Judged::AllWithRanks => true,
            Judged::Con | Judged::ConDir | Judged::ConDirAcc | Judged::ConDirBas | Judged::All =>
                false,
        }
    }

    /// Whether this product is judged.
    pub fn has(self, product: SetProduct) -> bool
        ensures { result ≡ has_product self product }
    {
        match product {
            SetProduct::Con => true,
            SetProduct::Dir => self.has_dir(),
            SetProduct::Acc => self.has_acc(),
            SetProduct::Bas => self.has_bas(),
            SetProduct::Rnk => self.has_rnk(),
        }
    }
}

/// The rules about judged rasters with these no-data numbers.
#[derive(Clone, Copy, PartialEq, Eq, Debug)]
pub struct Rules {
    pub nodata: NoData,
    pub judged: Judged,
}
