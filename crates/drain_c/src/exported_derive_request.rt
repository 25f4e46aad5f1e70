//! What follows from directions, as C calls it. `include/drain.h` declares it.

ghost use Rattle.std.specs.Prelude.{◌≡◌, ◌≢◌};
ghost use Rattle.drain_c.specs.Names.{IsFalse, IsTrue};
ghost use Rattle.drain_c.specs.Calls.{OfCall, derived_call};
ghost use Rattle.drain_c.specs.Derived.{AreDerivedNumbers, ReportsDerivation};
ghost use Rattle.drain_c.specs.Given.{IsElevationTold, set_in};
ghost use Rattle.drain_c.specs.Shown.{ShowsMissing};

use crate::answer::{Answer, show_missing};
use crate::call::derived_call;
use crate::derived::derive_rasters;
use crate::given::Request;
use crate::show_derived::show_derivation;
use std::alloc::Global;

/// Accumulation, basin labels and ranks that follow from directions, with the default no-data numbers at voids: 0 where
/// they are written, 1 where a path doesn't end, 2 where the bytes are refused or memory has another length, 3 as
/// `drain_judge`. Of the request only the elevations and the directions are read. Each raster has a number for each cell,
/// in row order. With another status than 0 none is written.
#[unsafe(no_mangle)]
pub extern "C" fn drain_derive_request<'a>(
    alloc: Global,
    request: &Request<'a>,
    acc: &mut [u32],
    bas: &mut [u32],
    rnk: &mut [u32],
    answer: &mut Answer,
) -> u32
    // Where bytes are missing, for which C had NULL, it says so.
    ensures missing { IsFalse (derived_call request.now).is_whole → ShowsMissing answer.new }

    // Else what it writes is the first reason why nothing follows, or that it does; or that memory has another length.
    ensures answer { IsTrue (derived_call request.now).is_whole → OfCall (derived_call request.now) (λ i. ReportsDerivation (set_in i) acc.old bas.old rnk.old answer.new) }
    ensures status { answer.new.status ≡ result }

    // With status 0 the rasters are written, and it is known where the elevations come from; else nothing is written.
    ensures derived { result ≡ 0 → OfCall (derived_call request.now) (λ i. AreDerivedNumbers (set_in i) acc.new bas.new rnk.new) }
    ensures elevation { result ≡ 0 → OfCall (derived_call request.now) IsElevationTold }
    ensures unwritten { result ≢ 0 → (acc.new ≡ acc.old) × (bas.new ≡ bas.old) × (rnk.new ≡ rnk.old) }
{
    let call = derived_call(request);
    if !call.is_whole {
        show_missing(answer);
        return answer.status;
    }
    show_derivation(&derive_rasters(alloc, &call), acc, bas, rnk, answer);
    answer.status
}
