//! The explanation that C calls. `include/drain.h` declares it.

ghost use Rattle.std.specs.Prelude.{◌≡◌, ◌<◌, ◌≤◌};
ghost use Rattle.drain_c.specs.Names.{IfSome, IsFalse, IsNone, IsTrue};
ghost use Rattle.drain_c.specs.Calls.{OfCall, call_of};
ghost use Rattle.drain_c.specs.Explained.{Explains, ReportsMapped};
ghost use Rattle.drain_c.specs.Given.{IsElevationTold, set_in};
ghost use Rattle.drain_c.specs.Shown.{ShowsBadChoice, ShowsMissing};

use crate::answer::{Answer, show_bad_choice, show_missing};
use crate::call::call_of;
use crate::explain::explain;
use crate::faults::Faults;
use crate::given::Request;
use crate::show_explained::show_explained;
use std::alloc::Global;

/// The answer of `drain_judge` with what explains it: the cells at which each rule about the judged rasters fails, and
/// for each cell the number of the least rule that fails there, or 0, or 255 at a void. The map has a byte for each cell,
/// in row order. With status 2 or 3 neither is written.
#[unsafe(no_mangle)]
pub extern "C" fn drain_explain_request<'a>(
    alloc: Global,
    request: &Request<'a>,
    map: &mut [u8],
    faults: &mut Faults,
    answer: &mut Answer,
) -> u32
    ensures bad_choice { IsNone (call_of request.now) → ShowsBadChoice answer.new }
    ensures missing { IfSome (call_of request.now) (λ call. IsFalse call.is_whole → ShowsMissing answer.new) }

    // Else what it writes is the answer to these bytes; or, if this is no refusal and the map's memory has another length,
    // that refusal.
    ensures answer { IfSome (call_of request.now) (λ call. IsTrue call.is_whole → OfCall call (λ i. ReportsMapped call.judged (set_in i) map.old answer.new)) }
    ensures status { answer.new.status ≡ result }

    // With a verdict what explains it is written, and it is known where the elevations come from; else nothing is written.
    ensures explained { IfSome (call_of request.now) (λ call. result < 2 → OfCall call (λ i. Explains call.judged (set_in i) faults.new map.new)) }
    ensures elevation { IfSome (call_of request.now) (λ call. result < 2 → OfCall call IsElevationTold) }
    ensures unwritten { 2 ≤ result → (map.new ≡ map.old) × (faults.new ≡ faults.old) }
{
    match call_of(request) {
        Some(call) if call.is_whole => {
            show_explained(&explain(alloc, &call), map, faults, answer);
            answer.status
        }
        Some(_) => {
            show_missing(answer);
            answer.status
        }
        None => {
            show_bad_choice(answer);
            answer.status
        }
    }
}
