//! The content of a header. The type keeps each number within its bounds.

use drain_grid::HeightKind;
use std::marker::Model;

/// Which byte of a number comes first.
#[derive(Clone, Copy, PartialEq, Eq, Debug)]
pub enum ByteOrdering {
    Least,
    Most,
}

/// The centre of the upper left pixel and the sizes of a pixel, in units of 10^-15 degree.
#[derive(Clone, Copy, PartialEq, Eq, Debug)]
pub struct Place {
    pub ulx: i128,
    pub uly: i128,
    pub xdim: i128,
    pub ydim: i128,
}

/// A header within its bounds.
#[derive(Clone, Copy, PartialEq, Eq, Debug)]
pub struct Header {
    pub rows: u32,
    pub cols: u32,
    pub bits: u8,
    pub order: ByteOrdering,
    pub signed: bool,
    pub skip: u32,
    pub row_bytes: u32,
    pub place: Place,
    pub nodata: Option<i64>,
    /// How the numbers of pixels, and the no-data number, stand for heights.
    pub kind: HeightKind,
}

impl Model for Header {
    ghost use Rattle.drain_header.specs.Header.{Fields, AreWithinBounds};

    ghost Value = { Fields };

    ghost view = { λ h. record { rows = h.rows; cols = h.cols; bits = h.bits; order = h.order; signed = h.signed; skip = h.skip; row_bytes = h.row_bytes; place = h.place; nodata = h.nodata; kind = h.kind } };

    ghost invariant = { λ h. AreWithinBounds (record { rows = h.rows; cols = h.cols; bits = h.bits; order = h.order; signed = h.signed; skip = h.skip; row_bytes = h.row_bytes; place = h.place; nodata = h.nodata; kind = h.kind }) };

    ghost inverse = { λ h. record { rows = h.rows; cols = h.cols; bits = h.bits; order = h.order; signed = h.signed; skip = h.skip; row_bytes = h.row_bytes; place = h.place; nodata = h.nodata; kind = h.kind } };
}
