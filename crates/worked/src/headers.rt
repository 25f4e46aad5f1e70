//! Headers: a small one, and one of a usual tool.

/// The header of a conditioned raster of 3 by 3 pixels, half a degree apart, as this program writes it.
pub const CON_TEXT: &str = "BYTEORDER I
LAYOUT BIL
NROWS 3
NCOLS 3
NBANDS 1
NBITS 16
BANDROWBYTES 6
TOTALROWBYTES 6
SKIPBYTES 0
PIXELTYPE SIGNEDINT
ULXMAP 0.000000000000000
ULYMAP 1.000000000000000
XDIM 0.500000000000000
YDIM 0.500000000000000
NODATA -32768
";

/// A usual tool's header of the tile N37W105.
pub const USUAL: &str = "BYTEORDER      I
LAYOUT         BIL
NROWS          1201
NCOLS          1201
NBANDS         1
NBITS          16
BANDROWBYTES   2402
TOTALROWBYTES  2402
PIXELTYPE      SIGNEDINT
ULXMAP         -105
ULYMAP         38
XDIM           0.000833333333333333
YDIM           0.000833333333333333
NODATA         -32768
";
