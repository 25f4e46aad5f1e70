//! The verdict that C calls. `include/drain.h` declares it.

ghost use Rattle.std.specs.Prelude.{◌≡◌, ◌<◌, ◌↔◌};
ghost use Rattle.drain_c.specs.Names.{false, IfSome, IsFalse, IsNone, IsTrue, outcome_report_line, has_rnk, AreRightIn, IsOutcomeIn, ProductsAreRight};
ghost use Rattle.drain_c.specs.Calls.{OfCall, call_of};
ghost use Rattle.drain_c.specs.Found.{outcome_found};
ghost use Rattle.drain_c.specs.Given.{IsElevationTold, set_in};
ghost use Rattle.drain_c.specs.Shown.{Reports, ShowsBadChoice, ShowsMissing};

use crate::answer::{Answer, show_bad_choice, show_missing, show_outcome};
use crate::call::call_of;
use crate::given::Request;
use crate::judge::judge;
use std::alloc::Global;

/// Whether the judged rasters are right, part of a correct set: 0 where they are, 1 where they aren't, 2 where the bytes
/// have no verdict, 3 where the call is out of memory; with ranks 0 where these show it, 1 where they don't. No byte of
/// another raster is read. The clauses allow 3 for a failed read too; a slice in memory has none.
#[unsafe(no_mangle)]
pub extern "C" fn drain_judge<'a>(alloc: Global, request: &Request<'a>, answer: &mut Answer) -> u32
    // Where the number names no rasters that can be judged, or what is passed is no spacing, it says so.
    ensures bad_choice { IsNone (call_of request.now) → ShowsBadChoice answer.new }

    // Where bytes that are read are missing, for which C had NULL, it says so.
    ensures missing { IfSome (call_of request.now) (λ call. IsFalse call.is_whole → ShowsMissing answer.new) }

    // Else what it writes is the answer to these bytes: the numbers, and the line that the program prints.
    ensures answer { IfSome (call_of request.now) (λ call. IsTrue call.is_whole → OfCall call (λ i. Reports (IsOutcomeIn call.judged (set_in i)) outcome_found outcome_report_line answer.new)) }
    ensures status { answer.new.status ≡ result }

    // Where it gives a verdict, the tiles agree, and each cell has their elevation; or each has that of its pixel.
    ensures elevation { IfSome (call_of request.now) (λ call. result < 2 → OfCall call IsElevationTold) }

    // And without ranks it is 0 exactly where the judged rasters are right.
    ensures exactly { IfSome (call_of request.now) (λ call. has_rnk call.judged ≡ false → result < 2 → OfCall call (λ i. (result ≡ 0) ↔ AreRightIn call.judged (set_in i))) }

    // With ranks, where it is 0, the products are right: `ProductsAreRight` has a field for each sentence.
    ensures right { IfSome (call_of request.now) (λ call. IsTrue (has_rnk call.judged) → result ≡ 0 → OfCall call (λ i. ProductsAreRight (set_in i))) }
{
    match call_of(request) {
        Some(call) if call.is_whole => {
            show_outcome(&judge(alloc, &call), answer);
            answer.status
        }
        Some(_) => {
            show_missing(answer);
            answer.status
        }
        None => {
            show_bad_choice(answer);
            answer.status
        }
    }
}
