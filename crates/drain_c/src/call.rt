//! What a request asks.

ghost use Rattle.std.specs.Prelude.{◌≡◌};
ghost use Rattle.drain_c.specs.Calls.{call_of, con_beside, derived_call, directions_beside, elevations_of, judged_of};

use crate::given::{CheckBytes, RasterBytes, Request, TileBytes};
use crate::spacing::spacing_passed;
use crate::whole::{are_elevations_whole, are_rasters_whole, is_raster_whole, is_text_whole};
use drain_grid::Judged;
use drain_verdict::Given;

/// The elevations: tiles of a side, or one raster.
#[derive(Clone, Copy)]
pub enum Elevations<'a> {
    Tiles {
        side: u32,
        tiles: &'a [TileBytes<'a>],
    },
    Dem(RasterBytes<'a>),
}

/// What is asked: about which of these rasters, over which elevations, with what is given beside them; and whether none of
/// the bytes that it reads are missing.
#[derive(Drop)]
pub struct Call<'a> {
    pub elevations: Elevations<'a>,
    pub given: Given<'a>,
    pub rasters: CheckBytes<'a>,
    pub judged: Judged,
    pub is_whole: bool,
}

/// What a request asks. None if its number names no rasters that can be judged, or it passes no spacing.
pub fn call_of<'a>(request: &Request<'a>) -> Option<Call<'a>>
    ensures { result ≡ call_of request.now }
{
    match (judged_of(request.judged), spacing_passed(&request.spacing)) {
        (Some(judged), Some(spacing)) => {
            let elevations = elevations_of(request);
            let is_whole = are_elevations_whole(&elevations)
                && is_text_whole(&request.sinks)
                && is_text_whole(&request.spacing.widths)
                && are_rasters_whole(judged, &request.rasters);
            Some(Call {
                elevations,
                given: Given {
                    sinks: request.sinks.bytes,
                    spacing,
                },
                rasters: request.rasters,
                judged,
                is_whole,
            })
        }
        _ => None,
    }
}

/// What a request for derived rasters asks: of it the elevations and the directions count alone.
pub fn derived_call<'a>(request: &Request<'a>) -> Call<'a>
    ensures { result ≡ derived_call request.now }
{
    let elevations = elevations_of(request);
    let dir = &request.rasters.dir;
    let is_whole = are_elevations_whole(&elevations) && is_raster_whole(dir);
    Call {
        elevations,
        given: Given::plain(&[]),
        rasters: directions_beside(&con_beside(&elevations, dir), dir),
        judged: Judged::All,
        is_whole,
    }
}

/// The elevations: tiles, or the raster if there is one.
fn elevations_of<'a>(request: &Request<'a>) -> Elevations<'a>
    ensures { result ≡ elevations_of request.now }
{
    if request.has_dem == 0 {
        Elevations::Tiles {
            side: request.side,
            tiles: request.tiles,
        }
    } else {
        Elevations::Dem(request.dem)
    }
}

/// The rasters that a number names, as the sum of theirs: 1 for con, 2 for dir, 4 for acc, 8 for bas, 16 for ranks. None
/// if these can't be judged alone.
fn judged_of(number: u32) -> Option<Judged>
    ensures { result ≡ judged_of number }
{
    match number {
        1 => Some(Judged::Con),
        3 => Some(Judged::ConDir),
        7 => Some(Judged::ConDirAcc),
        11 => Some(Judged::ConDirBas),
        15 => Some(Judged::All),
        31 => Some(Judged::AllWithRanks),
        _ => None,
    }
}

/// The raster in the place of con, of which no number matters: dir, or the raster of elevations.
fn con_beside<'a>(elevations: &Elevations<'a>, dir: &RasterBytes<'a>) -> RasterBytes<'a>
    ensures { result ≡ con_beside elevations.now dir.now }
{
    match elevations {
        Elevations::Tiles { .. } => *dir,
        Elevations::Dem(dem) => *dem,
    }
}

/// These directions also in the place of acc, bas and ranks, of which no number matters.
fn directions_beside<'a>(con: &RasterBytes<'a>, dir: &RasterBytes<'a>) -> CheckBytes<'a>
    ensures { result ≡ directions_beside con.now dir.now }
{
    CheckBytes {
        con: *con,
        dir: *dir,
        acc: *dir,
        bas: *dir,
        rnk: *dir,
    }
}
