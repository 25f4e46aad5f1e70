//! The help texts: what each command does, the lines it prints, its exit statuses and its arguments.

/// What an audit or a check does, over this number of rasters.
macro_rules! judged_about {
    ($number:literal, $about:literal) => {
        concat!("Reads elevation tiles (SRTM .hgt files of one side, named like N37W105.hgt), or with --dem one raster of
elevations, and ", $number, " rasters of their mosaic, each a BIL file with a header in the folder DIR: DIR/con.hdr
and DIR/con.bil, and so on.

  con    filled (conditioned) elevation, in the unit of the elevations
  dir    flow direction codes: 0 at an outlet, else 1 E, 2 SE, 4 S, 8 SW, 16 W, 32 NW, 64 N, 128 NE
  acc    flow accumulation: the number of cells that drain through the cell, itself included
  bas    basin labels, one for each outlet
", $about, "

A listed sink is a data cell where water may end inland, as in a lake without an outlet. Its line in FILE
is its row and its column, counted from 0 at the north-west corner of the mosaic.

Slopes are compared over square cells, or over the width and height of cells that --spacing gives, in any one
unit, or --widths, in a unit for each row: a line for each row from the north, two whole numbers up to
1073741824. The width in a row is that for water that leaves one of its cells. --spacing header takes the
ratio of XDIM and YDIM in the header of --dem: the least whole numbers in it; if these are greater, those in the
ratio of two sizes that a header rounds to these. FILE of --widths has at most 2097152 bytes.

A raster of elevations may have any shape up to 28801 by 28801, pixels of 8, 16 or 32 bits and any unit. A
cell is void where its pixel is the header's NODATA. The other rasters lie on it: the same rows and columns,
the corner within a hundredth of a pixel.")
    };
}

/// The lines and exit statuses of the command of this name, an audit or a check, around its lines of a rejection.
macro_rules! judged_after {
    ($rejected:literal, $name:literal) => {
        concat!("Lines and exit statuses:
  0  accepted rows=R cols=C data=D raised=U outlets=O
  1  ", $rejected, "
  2  refused BadSide, refused BadName I, refused NoTiles, refused RepeatedTile TILE, refused BoxTooLarge,
     refused BadHeader PRODUCT FAULT (a fault of drain header), refused WrongShape PRODUCT,
     refused Misplaced PRODUCT, refused BadTileLength TILE, refused RasterShort PRODUCT,
     refused SeamMismatch row=R col=C, refused BadSinkLine LINE, refused SinkNotData LINE,
     refused BadSpacingLine LINE, refused SpacingRows ROWS;
     with --dem refused BadHeader dem FAULT, refused BadPixelSize dem, refused RasterShort dem
  3  failed Open PATH, failed ReadFailed, failed OutOfMemory, or standard output couldn't be written

Examples:
  drain ", $name, " --dem dem.bil --products rasters
  drain ", $name, " --side 1201 --products rasters N37W105.hgt N37W106.hgt")
    };
}

pub const ABOUT: &str =
    "Checks drainage rasters computed from SRTM tiles or any other DEM, and makes them. What an acceptance \
    means is proved, whichever tool made the rasters.";

pub const AFTER: &str = "Exit statuses:
  0  accepted, made or derived; or printed
  1  rejected: the rasters break a rule
  2  refused: the input can't be used; or a usage error
  3  failed: a file can't be read or written, or memory ran out

Examples:
  drain audit --dem dem.bil --products rasters
  drain explain --dem dem.bil --products rasters --map faults.bil
  drain make --dem dem.bil --out rasters";

pub const AUDIT_ABOUT: &str = "Audit the four rasters of elevations, whichever tool made them";

pub const AUDIT_LONG_ABOUT: &str = judged_about!(
    "four",
    "
Accepts the rasters if and only if they are correct: con is the lowest surface above the ground from which
water reaches an edge, a void or a listed sink, each direction is a steepest way down or, where no neighbour is
lower, climbs nowhere, every path of directions ends at an outlet, acc is the number of cells upstream, and two
cells have the same label exactly if they drain to the same outlet. What is rejected is not correct. Ranks,
which drain check needs, are not opened. One byte is held for each cell, of con alone up to twenty. All files
are opened first. Prints one line.

With --only LIST it judges the rasters of the list alone, and opens no others. It accepts them if and only
if they are part of a correct set: if values of the other rasters exist that make it correct. Of con alone an
acceptance has no outlets=O, and a rejection may be: rejected NotFilled row=R col=C, the first cell where con
is lower than the filled elevation."
);

pub const AUDIT_AFTER: &str = judged_after!(
    "rejected NoEnd row=R col=C              the first cell whose path of directions does not end at a code 0
     rejected rule=N NAME row=R col=C        if all paths end: the first rule that fails, at the first cell",
    "audit"
);

pub const CHECK_ABOUT: &str = "Check the four rasters of elevations and a certificate of ranks";

pub const CHECK_LONG_ABOUT: &str = judged_about!(
    "five",
    "  rnk    ranks, a certificate: they fall along directions that cross a flat

What it accepts is correct: con is the lowest surface above the ground from which water reaches an edge, a
void or a listed sink, each direction is a steepest way down or, where no neighbour is lower, climbs nowhere,
every path of directions ends at an outlet, acc is the number of cells upstream, and two cells have the same
label exactly if they drain to the same outlet. Poor ranks are rejected too: for rasters without ranks use
drain audit. Three rows are held in memory, whatever the size of the mosaic. All files are opened first. Prints
one line."
);

pub const CHECK_AFTER: &str = judged_after!(
    "rejected rule=N NAME row=R col=C        the first rule that fails, at the first cell",
    "check"
);

pub const MAKE_ABOUT: &str = "Make the four rasters of elevations, and ranks";

pub const MAKE_LONG_ABOUT: &str =
    "Reads elevation tiles (SRTM .hgt files of one side, named like N37W105.hgt), or with --dem one raster of
elevations, and writes five rasters of their mosaic into the folder DIR, which must exist: DIR/con.hdr and
DIR/con.bil, and the same for dir, acc, bas and rnk. drain check --help says what each raster is. On a raster
of elevations they lie as it does, and con has its pixels and its NODATA, or 4294967296 if it has none.

Depressions are filled by a flood inwards from edges, voids and listed sinks (Priority-Flood). Off flats the
direction is the first of the steepest descents in the order E, SE, S, SW, W, NW, N, NE, over square cells or
those of --spacing or --widths; on flats it is the shortest way to a lower cell or an outlet. Labels number the
outlets from 1, row by row.

The rasters are proved to be correct, and the files are created only when no refusal is possible any
more. Existing files are replaced. Prints one line.";

pub const MAKE_AFTER: &str = "Lines and exit statuses:
  0  made rows=R cols=C
  2  refused BadSide, refused BadName I, refused NoTiles, refused RepeatedTile TILE, refused BoxTooLarge,
     refused BadTileLength TILE, refused SeamMismatch row=R col=C, refused BadSinkLine LINE,
     refused SinkNotData LINE, refused BadSpacingLine LINE, refused SpacingRows ROWS; with --dem
     refused BadHeader dem FAULT, refused BadPixelSize dem, refused RasterShort dem; nothing was written
  3  failed Open PATH, failed ReadFailed, failed WriteFailed, failed OutOfMemory; files that were there
     before stay as they were, but for links and failed renames; or standard output couldn't be written,
     and the files may be complete

Examples:
  drain make --dem dem.bil --out rasters
  drain make --side 1201 --out rasters N37W105.hgt N37W106.hgt";

pub const DERIVE_ABOUT: &str =
    "Compute accumulation, basin labels and ranks from the directions of any tool";

pub const DERIVE_LONG_ABOUT: &str =
    "Reads elevation tiles (SRTM .hgt files of one side, named like N37W105.hgt), or with --dem one raster of
elevations, for their voids, and directions from the files dir.hdr and dir.bil of the folder after --products.
Writes what follows from these directions into the folder after --out, which must exist: accumulation (acc),
basin labels (bas) and ranks (rnk), each a BIL file with a header. No other raster is opened.

  acc    the number of cells that drain through the cell, itself included
  bas    the number of the outlet where its path ends, counted from 1 in row order
  rnk    the number of steps to that outlet

They are proved to follow from the directions: with them the four rasters are correct if and only if con and
dir are right. The files are created only when no refusal is possible any more. Existing files are replaced,
except those that are read. Prints one line.";

pub const DERIVE_AFTER: &str = "Lines and exit statuses:
  0  derived rows=R cols=C
  1  rejected NoEnd row=R col=C              the first cell whose path of directions does not end at a code 0
  2  refused ..                              as drain audit, of elevations, dir and sinks; nothing was written
  3  failed Open PATH, failed ReadFailed, failed WriteFailed, failed OutOfMemory; files that were there
     before stay as they were, but for links and failed renames; or standard output couldn't be written,
     and the files may be complete

Examples:
  drain derive --dem dem.bil --products rasters --out rasters
  drain derive --side 1201 --products rasters --out rasters N37W105.hgt N37W106.hgt";

pub const FILL_ABOUT: &str =
    "Check a filled elevation raster, its spill parents and its ranks against their tile";

pub const FILL_LONG_ABOUT: &str =
    "Reads 9 bytes for each cell of one square tile from standard input, each part row after row from
the north, most significant byte first:

  tile   2 bytes, signed    elevations in metres, -32768 for a void (an SRTM .hgt file)
  con    2 bytes, signed    filled (conditioned) elevations
  spl    1 byte             spill parents, as direction codes (0 for none)
  rnk    4 bytes            ranks

Accepts a surface that is filled and no higher than necessary: each cell has the lowest height from which
water reaches an edge or a void. Prints one line.";

pub const FILL_AFTER: &str = "Lines and exit statuses:
  0  accepted rows=R cols=C data=D raised=U
  1  rejected rule=N NAME row=R col=C        the first rule that fails, at the first cell
  2  refused BadSide, refused BadLength
  3  failed ReadFailed, failed OutOfMemory, or standard output couldn't be written

Example:
  drain fill --side 1201 < surface.fill";

pub const HEADER_ABOUT: &str = "Print what the header of a BIL raster means, or why it is refused";

pub const HEADER_LONG_ABOUT: &str =
    "Reads the header file of a BIL raster (.hdr) and prints it as this program writes headers: each keyword
with its value, or with its default where the keyword is absent, the coordinates of the centre of the
upper left pixel and the pixel sizes in degrees with 15 decimal places. At most 65537 bytes are read.";

pub const HEADER_AFTER: &str = "Lines and exit statuses:
  0  the header, fifteen lines (fourteen without a NODATA line)
  2  refused TooLong, refused RepeatedKey LINE, refused BadValue LINE, refused MissingKey KEYWORD,
     refused NotOneBand, refused BadBits, refused BadPixelType, refused RowTooShort
  3  failed Open PATH, failed ReadFailed, failed OutOfMemory, or standard output couldn't be written

Example:
  drain header rasters/con.hdr";

pub const OUT_HELP: &str = "The folder to write the rasters into";

pub const ONLY_HELP: &str =
    "Judge these rasters alone: con, or con,dir, or con,dir,acc, or con,dir,bas";

pub const BAD_LIST: &str =
    "the list must be con, or con,dir, or con,dir,acc, or con,dir,bas, or con,dir,acc,bas";

pub const PRODUCTS_HELP: &str = "The folder of the rasters";

pub const DEM_HELP: &str =
    "One raster of elevations in place of tiles: a name that ends in .bil, its header .hdr beside it";

pub const BAD_DEM: &str =
    "the name of a raster of elevations must end in .bil; for GeoTIFFs: drain-gis judge";

pub const TILES_HELP: &str = "The tile files, each named after its south-west corner";

pub const SINKS_HELP: &str = "A list of inland sinks, one a line: ROW COL";

pub const SPACING_HELP: &str =
    "Width and height of all cells, as 30,20.5, or header, the pixel size of --dem [default: 1,1]";

pub const BAD_SPACING: &str =
    "the spacing must be W,H: two decimals, each from 1 to 1073741824 once both are whole numbers; or header, with --dem";

pub const WIDTHS_HELP: &str =
    "Width and height of the cells of each row, a line each from the north: two whole numbers";

pub const PROGRESS_HELP: &str = "Report progress on standard error, in at most two lines a second";

pub const JSON_HELP: &str = "Print one JSON object instead of text";

pub const FILE_HELP: &str = "The header file";

pub const BAD_SIDE: &str = "the side is no whole number";

pub const SIDE_HELP: &str = "Samples along an edge of the tile, 2 to 3601";
