//! Where the members of an answer, of faults and of a request lie, for a caller with a declaration of its own.

ghost use Rattle.std.specs.Prelude.{◌≡◌, ◌+◌, ◌*◌, ◌<◌};
ghost use Rattle.drain_c.specs.Names.{map, replicate, range_with_len};
ghost use Rattle.drain_c.specs.Requests.{HasPlaces, IsRasterAt, IsTextAt};

use crate::answer::Answer;
use crate::faults::{FaultCells, Faults};
use crate::given::{CheckBytes, GivenBytes, RasterBytes, Request, SpacingBytes};

/// Writes to each number of an answer its place in the struct, in bytes, and 255 to each byte of the line: the size of
/// the struct.
#[unsafe(no_mangle)]
pub extern "C" fn drain_answer_layout(answer: &mut Answer) -> usize
    ensures places { answer.new ≡ record { status = 0; rule = 4; row = 8; col = 12; line = replicate 164 255 } }
    ensures size { result ≡ 180 }
{
    *answer = Answer {
        status: 0,
        rule: 4,
        row: 8,
        col: 12,
        line: [255; 164],
    };
    size_of::<Answer>()
}

/// Writes to each number of faults its place in the struct, in bytes: the size of the struct.
#[unsafe(no_mangle)]
pub extern "C" fn drain_faults_layout(faults: &mut Faults) -> usize
    ensures places { faults.new.rules ≡ map (λ k. record { cells = 12 * k; row = 12 * k + 4; col = 12 * k + 8 }) (range_with_len 0 15) }
    ensures size { result ≡ 180 }
{
    let rules = [
        place(0),
        place(1),
        place(2),
        place(3),
        place(4),
        place(5),
        place(6),
        place(7),
        place(8),
        place(9),
        place(10),
        place(11),
        place(12),
        place(13),
        place(14),
    ];
    *faults = Faults { rules };
    size_of::<Faults>()
}

/// The places of the numbers of one rule, counted from 0.
fn place(rule: u32) -> FaultCells
    requires { rule < 15 }
    ensures { result ≡ record { cells = 12 * rule; row = 12 * rule + 4; col = 12 * rule + 8 } }
{
    FaultCells {
        cells: 12 * rule,
        row: 12 * rule + 4,
        col: 12 * rule + 8,
    }
}

/// Writes to each number of a request its place in the struct, in bytes, but 0 to each length: the size of the struct.
#[unsafe(no_mangle)]
pub extern "C" fn drain_request_layout<'a>(request: &mut Request<'a>) -> usize
    ensures places { HasPlaces request.new }
    ensures size { result ≡ 376 }
{
    *request = Request {
        side: 0,
        has_dem: 4,
        tiles: &[],
        dem: raster_at(24),
        sinks: text_at(72),
        spacing: SpacingBytes {
            width: 96,
            height: 100,
            widths: text_at(104),
        },
        rasters: CheckBytes {
            con: raster_at(128),
            dir: raster_at(176),
            acc: raster_at(224),
            bas: raster_at(272),
            rnk: raster_at(320),
        },
        judged: 368,
    };
    size_of::<Request>()
}

/// The places of a raster that lies here.
fn raster_at<'a>(place: usize) -> RasterBytes<'a>
    requires { place < 376 }
    ensures { IsRasterAt place result }
{
    RasterBytes {
        header: text_at(place),
        pixels: text_at(place + 24),
    }
}

/// The place of the number of missing bytes where bytes lie here, of which there are none.
fn text_at<'a>(place: usize) -> GivenBytes<'a>
    requires { place < 400 }
    ensures { IsTextAt place result }
{
    GivenBytes {
        bytes: &[],
        missing: place + 16,
    }
}
