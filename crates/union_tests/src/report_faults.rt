//! The fault of a text that is no report.

use crate::report_texts::{changed_text, text};
use drain_report::{ReportFault, read_report};
use std::alloc::Global;
use std::test::Fail;

/// The fault of a text, none if it is a report's.
fn fault(alloc: Global, text: &[u8]) -> Option<ReportFault> {
    read_report(alloc, text).err()
}

/// What is replaced in the lines, and the fault.
static FAULTS: [(usize, &str, ReportFault); 57] = [
    (1, "drain-window-report 3", ReportFault::WrongVersion),
    (1, "drain-window-report 5", ReportFault::WrongVersion),
    (1, "drain-window-report 4 ", ReportFault::WrongVersion),
    (2, "side", ReportFault::BadLine(2)),
    (2, "side 01201", ReportFault::BadLine(2)),
    (2, "side +1201", ReportFault::BadLine(2)),
    (2, "side -1", ReportFault::OutOfRange(2)),
    (2, "dem 0 0 1 2 3 4 5 6 7", ReportFault::BadLine(2)),
    (2, "dem 0 0 1 2 3 4 5 6 7 8 9", ReportFault::BadLine(2)),
    (
        2,
        "dem 0 0 1 2 3 4 5 6 7 9223372036854775808",
        ReportFault::BadLine(2),
    ),
    (
        2,
        "dem 0 4294967296 1 2 3 4 5 6 7 8",
        ReportFault::OutOfRange(2),
    ),
    (3, "window 62400 90001 3 4 0 1 0", ReportFault::BadLine(3)),
    (
        3,
        "window 62400 90001 3 4 0 1 0 2",
        ReportFault::OutOfRange(3),
    ),
    (
        3,
        "window 62400 90001 4294967296 4 0 1 0 0",
        ReportFault::OutOfRange(3),
    ),
    (4, "nodata 10000000001 255 0 0", ReportFault::OutOfRange(4)),
    (
        4,
        "nodata -32768 255 0 -10000000001",
        ReportFault::OutOfRange(4),
    ),
    (4, "nodata -32768 255 0 0 255 0", ReportFault::BadLine(4)),
    (5, "accepted 4294967296 4 8 1 1", ReportFault::OutOfRange(5)),
    (5, "accepted 3 4 8 1 -1", ReportFault::OutOfRange(5)),
    (
        5,
        "accepted 3 4 8 1 9223372036854775808",
        ReportFault::BadLine(5),
    ),
    (5, "rejected 16 0 0", ReportFault::OutOfRange(5)),
    (5, "taken 3 4 8 1 1", ReportFault::BadLine(5)),
    (6, "spacings 0", ReportFault::BadLine(6)),
    (6, "spacing 1 2", ReportFault::BadLine(6)),
    (6, "spacings 1", ReportFault::BadLine(7)),
    (6, "spacings 1\nspacing 0 1", ReportFault::OutOfRange(7)),
    (
        6,
        "spacings 1\nspacing 1 1073741825",
        ReportFault::OutOfRange(7),
    ),
    (6, "spacings 1\nspacing 1", ReportFault::BadLine(7)),
    (6, "spacings 1\nspacing 1 2 3", ReportFault::BadLine(7)),
    (6, "spacings 1\nspacing 1 2", ReportFault::BadLine(8)),
    (6, "spacings 1\nspacing 1 2 single", ReportFault::BadLine(8)),
    (6, "spacings 1\nspacing 1 2 Single", ReportFault::BadLine(7)),
    (
        6,
        "spacings 1\nspacing 1 2 single ",
        ReportFault::BadLine(7),
    ),
    (6, "spacings 1\nspacing 1 single", ReportFault::BadLine(7)),
    (
        6,
        "spacings 1\nspacing 0 1 single",
        ReportFault::OutOfRange(7),
    ),
    (6, "tiles 3", ReportFault::BadLine(9)),
    (6, "tiles 1", ReportFault::BadLine(8)),
    (7, "tile n37w105.hgt", ReportFault::BadLine(7)),
    (8, "tile S00E000.hgt", ReportFault::BadLine(8)),
    (9, "sinks 3", ReportFault::BadLine(12)),
    (9, "outlets 2", ReportFault::BadLine(9)),
    (10, "sink 62400", ReportFault::BadLine(10)),
    (10, "sink 62400 -1", ReportFault::OutOfRange(10)),
    (11, "outlet 7 62401 90002", ReportFault::BadLine(11)),
    (12, "outlets 4294967296", ReportFault::OutOfRange(12)),
    (13, "outlet 7 62400 90004 ", ReportFault::BadLine(13)),
    (
        13,
        "outlet 99999999999999999999 0 0",
        ReportFault::BadLine(13),
    ),
    (13, "outlet 7 62400 4294967296", ReportFault::OutOfRange(13)),
    (
        15,
        "seam 62401 90001 void 0 -2147483648 255 0 0",
        ReportFault::BadLine(15),
    ),
    (
        15,
        "seam 62401 90001 - - -2147483648 255 0 0",
        ReportFault::BadLine(15),
    ),
    (15, "seam 62401 90001 -", ReportFault::BadLine(15)),
    (
        15,
        "seam 62401 90001 - 0 -2147483648 255 0 0 0 0",
        ReportFault::BadLine(15),
    ),
    (
        16,
        "seam 62401 90002 4294967296 1 -5 0 8 7",
        ReportFault::OutOfRange(16),
    ),
    (
        16,
        "seam 62401 90002 -2147483649 1 -5 0 8 7",
        ReportFault::OutOfRange(16),
    ),
    (
        16,
        "seam 62401 90002 -5 1 -5 0 4294967296 7",
        ReportFault::OutOfRange(16),
    ),
    (18, "seam 0 0 0 0 0 0 0 0", ReportFault::BadLine(18)),
    (19, "more", ReportFault::AfterEnd),
];

#[test]
fn each_fault_is_found(rt: HostRuntime) -> Result<(), Fail> {
    for (line, other, expected) in FAULTS {
        let bytes = changed_text(rt.alloc(), (line, other))?;
        let found = fault(rt.alloc(), &bytes);
        assert_eq!(rt; found, Some(expected), "{line} {other}");
    }
    Ok(())
}

/// The fault of a text that is cut after its first bytes, of which so many are line feeds.
fn cut(line_feeds: u64) -> ReportFault {
    match line_feeds {
        0 => ReportFault::WrongVersion,
        _ => ReportFault::MissingLine(line_feeds.saturating_add(1)),
    }
}

#[test]
fn a_cut_text_lacks_a_line(rt: HostRuntime) -> Result<(), Fail> {
    let bytes = text(rt.alloc())?;
    let mut line_feeds = 0;
    for length in 0..bytes.len() {
        let found = fault(rt.alloc(), &bytes[..length]);
        assert_eq!(rt; found, Some(cut(line_feeds)), "{length}");
        if bytes[length] == b'\n' {
            line_feeds = line_feeds.saturating_add(1);
        }
    }
    Ok(())
}
