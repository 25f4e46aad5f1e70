//! The help texts of `drain window` and `drain merge`: what they do, their lines, exit statuses and arguments.

pub const WINDOW_ABOUT: &str =
    "Judge one window of a raster that is too large for one mosaic, and write a report on it";

pub const WINDOW_LONG_ABOUT: &str =
    "Judges one window of a raster of any size, here called the union, and writes a report for drain merge. A
mosaic has at most 8 by 8 tiles, and water may leave it at each of its edges. So a union that doesn't fit one
mosaic can't be audited in parts: it is judged window by window, and drain merge gives the verdict on it.

Reads what drain audit reads: elevation tiles (SRTM .hgt files of one side, named like N37W105.hgt) and the
rasters con, dir, acc and bas of their mosaic in the folder DIR, each of the size of the mosaic. drain audit
--help says what each raster is. With --dem a part of one large raster of elevations, the union, takes the
place of the mosaic: it begins in row ROW and column COL of the union, counted from 0, and the rasters in DIR
lie on the part.

The window is a box of the mosaic: TOP and LEFT are the row and the column of its first cell in the mosaic,
counted from 0, ROWS and COLS its size. SIDES are its inner sides, those on which the union goes on, as
letters of n, e, s, w: --inner ns. Without --inner no side is inner. On an inner side the outermost row or
column is read, but not judged. Each other side has to be an edge of the mosaic. Two windows that meet have to
overlap by exactly two rows or columns: then each cell is judged once, and counts add up.

The rasters are judged as by drain audit, except for labels that outlets share (rule SharedLabel), which
drain merge finds, and paths without an end, which need no test of their own.

The report has the window's place on the map or in the union, its tiles or the place of its part, the verdict and the counts, the outlets, the listed
sinks, and all numbers in the outermost two rows and columns of inner sides. It is also written if the window
is rejected, but not if it is refused. An existing file is replaced, unless it is one that is read. Prints one
line.

A listed sink is a data cell where water may end inland, as in a lake without an outlet. Its line in the list
is its row and its column, counted from 0 at the north-west corner of the mosaic or of the part. --widths has a
line for each row of the mosaic or of the part. The report has the spacing of the window's rows.";

pub const WINDOW_AFTER: &str = "Lines and exit statuses:
  0  accepted rows=R cols=C data=D raised=U outlets=O
                                             the size of the window, and the counts of its judged cells
  1  rejected rule=N NAME row=R col=C        the first rule that fails, at the first judged cell,
                                             in rows and columns of the window
  2  refused ..                              as drain audit; no report was written
     refused BadBox                          the box isn't inside the mosaic, or a side that isn't inner is no
                                             edge of the mosaic; no report was written
  3  failed Open PATH, failed ReadFailed, failed WriteFailed, failed OutOfMemory; a report that was there
     before stays as it was, unless it is a link; or standard output couldn't be written, and the report
     may be complete

Example, a union of four tiles in a row, judged by two windows:
  drain window --side 1201 --products west --box 0,0,1201,2403 --inner e --report west.txt \\
      N37W106.hgt N37W105.hgt N37W104.hgt
  drain window --side 1201 --products east --box 0,1,1201,2400 --inner w --report east.txt \\
      N37W104.hgt N37W103.hgt
  drain merge west.txt east.txt

Example, the east half of a raster of 40,000 columns, cut out from column 20,000 on:
  drain window --dem east.bil --at 0,20000 --products east --box 0,0,15000,20000 --inner w --report east.txt";

pub const AT_HELP: &str = "Where the raster of --dem begins in the union: its row and column there";

pub const BAD_AT: &str =
    "--at goes with --dem alone and must be ROW,COL: two whole numbers, of at most 4294938494";

pub const BOX_HELP: &str = "The window: row and column of its first cell, and its size";

pub const INNER_HELP: &str = "The sides on which the union goes on: letters of n, e, s, w";

pub const REPORT_HELP: &str = "The file to write the report into";

pub const BAD_BOX: &str =
    "the box must be TOP,LEFT,ROWS,COLS: four whole numbers, with 1 to 28801 rows and columns";

pub const BAD_INNER: &str = "the inner sides must be letters of n, e, s, w";

pub const MERGE_ABOUT: &str =
    "Combine the reports on all windows of a raster into one verdict on the whole raster";

pub const MERGE_LONG_ABOUT: &str =
    "Reads the reports that drain window wrote on all windows of one raster, the union, and prints the verdict on
the union. Reports are read one at a time; no tile and no raster is read again.

What it accepts is correct in the sense of drain audit, whatever the size of the union, if drain window or
drain merge wrote each report: con is the lowest surface above the ground from which water reaches an edge of
the union, a void or a listed sink, each direction is a steepest way down or, where no neighbour is lower,
climbs nowhere, every path of directions ends at an outlet, acc is the number of cells upstream, and two cells
have the same label exactly if they drain to the same outlet.

The union is the smallest box around all windows, and each of its cells has to be judged by a window. Two
windows that meet have to overlap by exactly two rows or columns, and to show the same numbers there. Each
side that isn't inner has to be an edge of the union.

With --sinks FILE the sinks that the windows took have to be those of the list, which has rows and columns of
the union. Without it the union's sinks are those that the windows took. Rows and columns are counted from 0
at the north-west corner of the union. Prints one line.

With --report FILE the windows are a part of the union: they have to fill the smallest box around them, on
whose sides the union may go on. The report of this box is written into FILE, as drain window writes that of a
window, and takes the place of theirs in a later merge: so a large union is merged in groups, and groups of
groups, with the same verdict. The line says of the box what that of drain window says of a window. Rows and
columns of a refusal are then those of the map, or of the whole raster.";

pub const MERGE_AFTER: &str = "Lines and exit statuses:
  0  accepted rows=R cols=C data=D raised=U outlets=O
                                             the size and the counts of the union
  1  rejected rule=N NAME row=R col=C        the first of the windows' faults; if there is none, rule=15
                                             SharedLabel, at the first outlet with the label of an earlier one
  2  refused NoReports                       no report was given
     refused BadReport I FAULT               report I, counted from 0, is no report: WrongVersion,
                                             MissingLine LINE, BadLine LINE, OutOfRange LINE, AfterEnd
     refused OtherSide I                     report I isn't of tiles of the side that the first report has
     refused OtherGrid I                     report I isn't of the raster of which the first report is: of tiles,
                                             or by its header and --at of other pixels or another place
     refused OtherNoData I                   report I has other no-data numbers than the first report
     refused OtherSpacing I                  report I has another spacing than an earlier one for a row of both
     refused OutsideUnion I                  a side of window I isn't inner, and is no edge of the union
     refused JudgesNothing I                 all rows, or all columns, of window I are rings
     refused Overlap I J                     the two windows judge one cell both: they share more than two
                                             rows or columns along a side, or one window is given twice
     refused LeftOut row=R col=C             no window judges this cell
     refused SeamsDiffer row=R col=C         two windows show different numbers at this cell
     refused BadSinkLine LINE                a line of the list is no sink's
     refused SinkLeftOut LINE                no window took the sink of this line
     refused SinkNotListed row=R col=C       a window took this cell as a sink, but the list lacks it
  3  failed Open PATH, failed ReadFailed, failed WriteFailed, failed OutOfMemory, or standard output couldn't be
     written; a report that was there then still is

Example:
  drain merge west.txt east.txt";

pub const BOX_REPORT_HELP: &str = "The file to write the report of the box of all windows into";

pub const REPORTS_HELP: &str = "The reports on all windows of the union";
