//! What was expected and found for each refusal.

use crate::worked::{Form, page_has};
use drain_answer::Refusal;
use drain_findings::{Extent, NotData, RefusalDetail, TileValue};
use drain_grid::{Cell, Product};
use drain_header::Place;
use drain_hgt::TileName;
use drain_mosaic::Layout;
use drain_page::Facts;
use std::alloc::Global;
use std::test::Fail;

/// The facts of a refusal.
pub fn refused<F>(refusal: Refusal, note: RefusalDetail) -> Facts<F> {
    Facts {
        answer: Err(refusal),
        refusal: Some(note),
        findings: None,
    }
}

fn bytes(alloc: Global, bytes: &[u8]) -> Result<Vec<u8>, Fail> {
    Ok(bytes.to_vec(alloc)?)
}

/// A place at this longitude.
fn place(west: i32) -> Place {
    Place {
        ulx: i128::from(west) * 1_000_000_000_000_000,
        uly: 37_500_000_000_000_001,
        xdim: 833_333_333_333,
        ydim: 833_333_333_333,
    }
}

/// Facts of this number of kinds, by number.
fn facts(alloc: Global, kind: usize) -> Result<Facts<Layout>, Fail> {
    let tile = TileName::parse(b"N36W085.hgt")?;
    Ok(match kind {
        0 => refused(Refusal::BadSide, RefusalDetail::Side(7000)),
        1 => refused(
            Refusal::BadName(0),
            RefusalDetail::Name(bytes(alloc, b"S1\\\xe9.hgt")?),
        ),
        2 => refused(
            Refusal::WrongShape(Product::Con),
            RefusalDetail::Shape {
                product: Product::Con,
                expected: Extent { rows: 3, cols: 5 },
                found: Extent { rows: 4, cols: 5 },
            },
        ),
        3 => refused(
            Refusal::Misplaced(Product::Dir),
            RefusalDetail::Position {
                product: Product::Dir,
                expected: place(-105),
                found: place(-104),
            },
        ),
        4 => refused(
            Refusal::BadTileLength(tile),
            RefusalDetail::TileLength {
                tile,
                expected: 18,
                found: 17,
            },
        ),
        5 => refused(
            Refusal::RasterShort(Product::Rnk),
            RefusalDetail::RasterLength {
                product: Product::Rnk,
                expected: 36,
                found: 0,
            },
        ),
        6 => refused(
            Refusal::SeamMismatch(Cell { row: 2, col: 0 }),
            RefusalDetail::Seam {
                first: TileValue { tile, metres: -3 },
                other: TileValue { tile, metres: 120 },
            },
        ),
        7 => refused(
            Refusal::BadSinkLine(2),
            RefusalDetail::SinkLine {
                number: 2,
                start: bytes(alloc, b"1\t2")?,
                bytes: 3,
            },
        ),
        8 => refused(
            Refusal::SinkNotData(2),
            RefusalDetail::SinkCell {
                number: 2,
                row: 4294967296,
                col: 7,
                why: NotData::Void,
            },
        ),
        9 => refused(
            Refusal::SinkNotData(3),
            RefusalDetail::SinkCell {
                number: 3,
                row: 4,
                col: 7,
                why: NotData::Outside,
            },
        ),
        10 => refused(
            Refusal::BadSinkLine(7),
            RefusalDetail::SinkLine {
                number: 7,
                start: bytes(alloc, b"1 \xc3")?,
                bytes: 100000000,
            },
        ),
        11 => refused(
            Refusal::BadSpacingLine(3),
            RefusalDetail::SpacingLine {
                number: 3,
                start: bytes(alloc, b"0 1")?,
                bytes: 3,
            },
        ),
        12 => refused(
            Refusal::SpacingRows(3),
            RefusalDetail::SpacingRows {
                expected: 4,
                found: 3,
            },
        ),
        _ => refused(
            Refusal::BadName(1),
            RefusalDetail::Name(bytes(alloc, b"\"\\\x7f\0/")?),
        ),
    })
}

/// For each of them the text below its line, and its JSON.
static WANTED: [(&str, &str); 14] = [
    (
        "\nexpected: a side from 2 to 3601\nfound: 7000\n",
        r#""refusal":{"about":"side","least":2,"greatest":3601,"found":7000},"rows""#,
    ),
    (
        "\nexpected: the name of a tile, such as N36W085.hgt\nfound: S1\\\\\\xe9.hgt\n",
        r#""refusal":{"about":"name","found":"S1\\\\\\xe9.hgt"},"rows""#,
    ),
    (
        "\nexpected: con with 3 rows and 5 columns\nfound: con with 4 rows and 5 columns\n",
        r#""refusal":{"about":"shape","product":"con","expected":{"rows":3,"cols":5},"found":{"rows":4,"cols":5}},"rows""#,
    ),
    (
        "\nexpected: dir at ULXMAP -105.000000000000000, ULYMAP 37.500000000000001, XDIM 0.000833333333333, YDIM 0.000833333333333\nfound: dir at ULXMAP -104.000000000000000, ULYMAP 37.500000000000001, XDIM 0.000833333333333, YDIM 0.000833333333333\n",
        r#""refusal":{"about":"position","product":"dir","expected":{"ulxmap":"-105.000000000000000","ulymap":"37.500000000000001","xdim":"0.000833333333333","ydim":"0.000833333333333"},"found":{"ulxmap":"-104.000000000000000","ulymap":"37.500000000000001","xdim":"0.000833333333333","ydim":"0.000833333333333"}},"rows""#,
    ),
    (
        "\nexpected: N36W085.hgt of 18 bytes\nfound: N36W085.hgt of 17 bytes\n",
        r#""refusal":{"about":"tile_length","tile":"N36W085.hgt","expected":18,"found":17},"rows""#,
    ),
    (
        "\nexpected: rnk.bil of 36 bytes\nfound: rnk.bil of 0 bytes\n",
        r#""refusal":{"about":"raster_length","product":"rnk","expected":36,"found":0},"rows""#,
    ),
    (
        "\nexpected: one height at the cell: N36W085.hgt has -3\nfound: N36W085.hgt has 120\n",
        r#""refusal":{"about":"seam","first":{"tile":"N36W085.hgt","metres":-3},"other":{"tile":"N36W085.hgt","metres":120}},"rows""#,
    ),
    (
        "\nexpected: line 2: a row and a column, such as 12 7\nfound: line 2: 1\\x092\n",
        r#""refusal":{"about":"sink_line","line":2,"found":"1\\x092","bytes":3},"rows""#,
    ),
    (
        "\nexpected: line 2: a data cell\nfound: row 4294967296, column 7, a void\n",
        r#""refusal":{"about":"sink_cell","line":2,"row":4294967296,"col":7,"found":"void"},"rows""#,
    ),
    (
        "\nexpected: line 3: a data cell\nfound: row 4, column 7, outside the mosaic\n",
        r#""refusal":{"about":"sink_cell","line":3,"row":4,"col":7,"found":"outside"},"rows""#,
    ),
    (
        "\nexpected: line 7: a row and a column, such as 12 7\nfound: line 7, the first 3 of 100000000 bytes: 1 \\xc3\n",
        r#""refusal":{"about":"sink_line","line":7,"found":"1 \\xc3","bytes":100000000},"rows""#,
    ),
    (
        "\nexpected: line 3: a width and a height, such as 30 20\nfound: line 3: 0 1\n",
        r#""refusal":{"about":"spacing_line","line":3,"found":"0 1","bytes":3},"rows""#,
    ),
    (
        "\nexpected: a line for each of 4 rows\nfound: lines for 3 rows\n",
        r#""refusal":{"about":"spacing_rows","expected":4,"found":3},"rows""#,
    ),
    (
        "\nexpected: the name of a tile, such as N36W085.hgt\nfound: \"\\\\\\x7f\\x00/\n",
        r#""refusal":{"about":"name","found":"\"\\\\\\x7f\\x00/"},"rows""#,
    ),
];

#[test]
fn each_refusal(rt: HostRuntime) -> Result<(), Fail> {
    for (kind, (words, json)) in WANTED.iter().enumerate() {
        for (form, part) in [(Form::Text, words), (Form::Json, json)] {
            let facts = facts(rt.alloc(), kind)?;
            page_has(&rt, rt.alloc(), form, part, facts, part)?;
        }
    }
    Ok(())
}
