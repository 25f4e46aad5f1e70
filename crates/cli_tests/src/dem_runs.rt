//! Products are made of one raster of elevations, and written as files in memory.

use crate::inputs::Parts;
use crate::making::make_on;
use crate::printed::{empty_files, files_of, same_bytes, same_line};
use drain_grid::{SetProduct, SpacingInput};
use drain_verdict::Given;
use std::alloc::Global;
use std::process::Abort;
use std::test::Fail;

/// A raster of 1 row and 3 columns, of 8 bits without a sign, whose least height means a void.
const HEADER: &[u8] =
    b"NROWS 1\nNCOLS 3\nULXMAP 500000.25\nULYMAP -4\nXDIM 30\nYDIM 20\nNBITS 8\nNODATA 1\n";

/// Con's header there.
const CON: &[u8] =
    b"BYTEORDER I\nLAYOUT BIL\nNROWS 1\nNCOLS 3\nNBANDS 1\nNBITS 8\nBANDROWBYTES 3\nTOTALROWBYTES 3\nSKIPBYTES 0\nPIXELTYPE UNSIGNEDINT\nULXMAP 500000.250000000000000\nULYMAP -4.000000000000000\nXDIM 30.000000000000000\nYDIM 20.000000000000000\nNODATA 1\n";

#[test]
fn con_has_the_pixels_and_the_place_of_the_elevations(rt: HostRuntime) -> Result<(), Fail> {
    let mut files = empty_files(rt.alloc(), 300)?;
    let dem = Parts {
        header: HEADER,
        raster: &[200, 1, 7],
    };
    let given = Given::plain(b"");
    let run = make_on(rt.alloc(), dem, &given, files.as_mut_slice())?;
    same_line(&rt, "made", &run, "made rows=1 cols=3\n", 0);
    let con = files_of(files.as_slice(), SetProduct::Con)?;
    same_bytes(&rt, "con.hdr", con.0, CON);
    same_bytes(&rt, "con.bil", con.1, &[200, 1, 7]);
    let dir = files_of(files.as_slice(), SetProduct::Dir)?;
    same_bytes(&rt, "dir.bil", dir.1, &[0, 255, 0]);
    Ok(())
}

/// Fails the test if products of this raster with what is given have another line.
fn refused(
    rt: &impl Abort,
    alloc: Global,
    raster: &[u8],
    given: &Given,
    line: &str,
) -> Result<(), Fail> {
    let mut files = empty_files(alloc, 0)?;
    let dem = Parts {
        header: HEADER,
        raster,
    };
    let run = make_on(alloc, dem, given, files.as_mut_slice())?;
    same_line(rt, line, &run, line, 2);
    Ok(())
}

#[test]
fn a_short_raster_comes_before_sinks(rt: HostRuntime) -> Result<(), Fail> {
    let alloc = rt.alloc();
    let bad = Given::plain(b"0 0\nx");
    refused(&rt, alloc, &[5, 6], &bad, "refused RasterShort dem\n")?;
    refused(&rt, alloc, &[5, 6, 7], &bad, "refused BadSinkLine 2\n")?;
    let off = Given::plain(b"0 1");
    refused(&rt, alloc, &[5, 1, 7], &off, "refused SinkNotData 1\n")
}

/// These sinks, and this text of widths.
fn spaced<'a>(sinks: &'a [u8], widths: &'a [u8]) -> Given<'a> {
    Given {
        sinks,
        spacing: SpacingInput::ByRow(widths),
    }
}

#[test]
fn a_bad_spacing_comes_behind_sinks(rt: HostRuntime) -> Result<(), Fail> {
    let alloc = rt.alloc();
    let both = spaced(b"0 1", b"3 0");
    refused(&rt, alloc, &[5, 1, 7], &both, "refused SinkNotData 1\n")?;
    let bad = spaced(b"", b"3 4\n\n3 0\n4");
    refused(&rt, alloc, &[5, 1, 7], &bad, "refused BadSpacingLine 3\n")?;
    let rows = spaced(b"", b"3 4\n\n4 3\n");
    refused(&rt, alloc, &[5, 1, 7], &rows, "refused SpacingRows 2\n")
}
