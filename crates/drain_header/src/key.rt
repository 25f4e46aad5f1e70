//! The keywords of a header.

ghost use Rattle.std.specs.Prelude.{◌≡◌};
ghost use Rattle.drain_header.specs.Lines.{key_name};

/// A keyword, in the order of the table of keywords. Missing ones are reported in this order.
#[derive(Clone, Copy, PartialEq, Eq, Debug)]
pub enum Key {
    Nrows,
    Ncols,
    Nbands,
    Nbits,
    ByteOrder,
    Layout,
    PixelType,
    SkipBytes,
    BandRowBytes,
    TotalRowBytes,
    Ulxmap,
    Ulymap,
    Xdim,
    Ydim,
    Nodata,
}

impl Key {
    /// The keyword, in capitals.
    pub fn name(self) -> &'static str
        ensures { result.now ≡ key_name self }
    {
        match self {
            Key::Nrows => "NROWS",
            Key::Ncols => "NCOLS",
            Key::Nbands => "NBANDS",
            Key::Nbits => "NBITS",
            Key::ByteOrder => "BYTEORDER",
            Key::Layout => "LAYOUT",
            Key::PixelType => "PIXELTYPE",
            Key::SkipBytes => "SKIPBYTES",
            Key::BandRowBytes => "BANDROWBYTES",
            Key::TotalRowBytes => "TOTALROWBYTES",
            Key::Ulxmap => "ULXMAP",
            Key::Ulymap => "ULYMAP",
            Key::Xdim => "XDIM",
            Key::Ydim => "YDIM",
            Key::Nodata => "NODATA",
        }
    }
}
