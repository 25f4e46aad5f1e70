//! What is read before the rows: the list of sinks, the headers, the tiles' places and the layout; each with its refusals.

ghost use Rattle.std.specs.Prelude.{◌≡◌, ◌≢◌, ◌↔◌};
ghost use Rattle.drain_verdict.specs.Names.{IfOk, Some, IfSome, IsTrue, IfErr, sinks_of, header_extent, product_of, of_product, AllZip, IsNameOf, names_of};
ghost use Rattle.drain_verdict.specs.Texts.{kind_in, lines_in, nodata_in};
ghost use Rattle.drain_verdict.specs.Stages.{IsBadLine, IsToldOfSinks, IsHeaderFor, IsHeaderRefusal, AreHeadersOf, IsFirstRefusalOf, IsLayoutOf, IsLayoutRefusal, IsNameRefusal, IsLayoutFaultAs};
ghost use Rattle.drain_verdict.specs.Refusals.{IsOfBodies};

use crate::ground::GroundInput;
use drain_answer::Refusal;
use drain_device::ByteSource;
use drain_grid::tile::is_side;
use drain_grid::{
    Cell, HeightKind, NoData, OutOfMemory, PerProduct, Product, SetProduct, Shape, SinkData,
    SinkFault, Sinks, first_off_data, parse_sinks,
};
use drain_header::{Header, parse_header_of};
use drain_hgt::{TileInput, TileName};
use drain_mosaic::{Layout, LayoutFault};
use drain_raster::nodata;
use drain_rows::ListedVoids;
use std::alloc::Global;

/// The sinks of a list, none if a line is bad; and the first bad line.
#[derive(Drop)]
pub struct SinkListing {
    pub sinks: Sinks,
    pub bad: Option<u64>,
}

/// The sinks of a text.
pub fn sink_listing(alloc: Global, text: &[u8]) -> Result<SinkListing, OutOfMemory>
    ensures sinks { IfOk result (λ listing. listing.sinks ≡ lines_in (sinks_of text.now)) }
    ensures bad { IfOk result (λ listing. IsBadLine (sinks_of text.now) listing.bad) }
{
    match parse_sinks(alloc, text) {
        Ok(sinks) => Ok(SinkListing { sinks, bad: None }),
        Err(SinkFault::BadSinkLine(line)) => Ok(SinkListing {
            sinks: Sinks::none(alloc),
            bad: Some(line),
        }),
        Err(SinkFault::OutOfMemory) => Err(OutOfMemory),
    }
}

/// The first bad line, else the first that lists a cell outside the grid or one of these voids.
pub fn sink_refusal(listing: &SinkListing, shape: Shape, voids: &ListedVoids) -> Option<Refusal>
    ensures told { IsToldOfSinks listing.now shape voids.now result }
    ensures of_bodies { IfSome result IsOfBodies }
    ensures no_read { result ≢ Some Refusal.ReadFailed }
{
    if let Some(line) = listing.bad {
        return Some(Refusal::BadSinkLine(line));
    }
    match first_off_data(&listing.sinks, &VoidedGrid { shape, voids }) {
        Some(line) => Some(Refusal::SinkNotData(line)),
        None => None,
    }
}

/// A grid whose listed voids are known.
#[derive(Clone, Copy)]
struct VoidedGrid<'a> {
    shape: Shape,
    voids: &'a ListedVoids,
}

impl<'a> SinkData for VoidedGrid<'a> {
    ghost use Rattle.drain_rows.specs.GridRows.{has_data_but};

    ghost has = { λ grid. has_data_but grid.shape grid.voids.now };

    fn has_data(&self, cell: Cell) -> bool {
        cell.row < self.shape.rows() && cell.col < self.shape.cols() && !self.voids.has(cell)
    }
}

/// Whether the header gives the rows and columns of the ground.
fn has_shape<R: ByteSource, T: GroundInput<R>>(frame: &T::Frame, header: &Header) -> bool
    ensures { IsTrue result ↔ (header_extent header.now ≡ T.extent frame.now) }
{
    let shape = T::shape(frame);
    header.rows == shape.rows() && header.cols == shape.cols()
}

/// The kind of a product's numbers on heights of this kind: con's are heights, all others whole numbers.
fn kind_in(kind: HeightKind, product: SetProduct) -> HeightKind
    ensures { result ≡ kind_in kind product }
{
    match product {
        SetProduct::Con => kind,
        _ => HeightKind::Whole,
    }
}

/// The header of one product, whose numbers are of this kind, or why it is refused: its own fault, then its shape, then its place.
fn read_header<R: ByteSource, T: GroundInput<R>>(
    frame: &T::Frame,
    kind: HeightKind,
    product: Product,
    text: &[u8],
) -> Result<Header, Refusal>
    ensures header { IfOk result (IsHeaderFor kind (T.extent frame.now) (T.holds frame.now) text.now) }
    ensures refusal { IfErr result (IsHeaderRefusal kind (T.extent frame.now) (T.holds frame.now) product text.now) }
{
    let header = match parse_header_of(text, kind) {
        Ok(header) => header,
        Err(fault) => return Err(Refusal::BadHeader(product, fault)),
    };
    if !has_shape::<R, T>(frame, &header) {
        return Err(Refusal::WrongShape(product));
    }
    if !T::is_placed(frame, &header) {
        return Err(Refusal::Misplaced(product));
    }
    Ok(header)
}

/// The header of each product, or the first refusal: all refusals of one product's header come before those
/// of the next product.
///
/// A header is refused for its own first fault (`BadHeader`), con's as one of the ground's kind of heights, then if its
/// rows or columns aren't those of the ground (`WrongShape`), then if its raster doesn't lie on the ground (`Misplaced`): on tiles, if its corner lies more than
/// 10^-6 degree from the mosaic's or its pixels differ from samples by more than 10^-9 degree.
pub fn read_headers<R: ByteSource, T: GroundInput<R>>(
    frame: &T::Frame,
    texts: &PerProduct<&[u8]>,
) -> Result<PerProduct<Header>, Refusal>
    ensures headers { IfOk result (AreHeadersOf (T.kind frame.now) (T.extent frame.now) (T.holds frame.now) (λ p. (of_product texts.now p).now)) }
    ensures refusal { IfErr result (IsFirstRefusalOf (T.kind frame.now) (T.extent frame.now) (T.holds frame.now) (λ p. (of_product texts.now p).now)) }
{
    let read = |product: SetProduct| -> Result<Header, Refusal>
        ensures header { IfOk result (IsHeaderFor (kind_in (T.kind frame.entry.now) product) (T.extent frame.entry.now) (T.holds frame.entry.now) (of_product texts.entry.now product).now) }
        ensures refusal { IfErr result (IsHeaderRefusal (kind_in (T.kind frame.entry.now) product) (T.extent frame.entry.now) (T.holds frame.entry.now) (product_of product) (of_product texts.entry.now product).now) }
    {
        let kind = kind_in(T::height_kind(frame), product);
        read_header::<R, T>(frame, kind, product.product(), texts.of(product))
    };
    PerProduct::from_each(&read)
}

/// The no-data numbers of the products with these headers; for spl, which is in no set, the default one.
pub fn nodata_of(headers: &PerProduct<Header>) -> NoData
    ensures { result ≡ nodata_in headers.now }
{
    NoData {
        con: nodata(&headers.con, Product::Con),
        dir: nodata(&headers.dir, Product::Dir),
        acc: nodata(&headers.acc, Product::Acc),
        bas: nodata(&headers.bas, Product::Bas),
        spl: Product::Spl.default_no_data(),
        rnk: nodata(&headers.rnk, Product::Rnk),
    }
}

/// The layout of the named tiles, or why there is none: `BadSide`, `BadName` with the first bad name, then the first
/// fault of the list of tiles; `OutOfMemory` if there is no memory for the names.
pub fn layout_of<R>(alloc: Global, side: u32, tiles: &[TileInput<R>]) -> Result<Layout, Refusal>
    ensures layout { IfOk result (IsLayoutOf side (names_of tiles.now)) }
    ensures refusal { IfErr result (IsLayoutRefusal side (names_of tiles.now)) }
{
    if !is_side(side) {
        return Err(Refusal::BadSide);
    }
    let names = read_names(alloc, tiles)?;
    match Layout::new(alloc, side, &names) {
        Ok(layout) => Ok(layout),
        Err(fault) => Err(refusal_of(fault)),
    }
}

/// The named tiles, in their order, or the first name that names none.
fn read_names<R>(alloc: Global, tiles: &[TileInput<R>]) -> Result<Vec<TileName>, Refusal>
    ensures names { IfOk result (λ names. AllZip IsNameOf (names_of tiles.now) names.items) }
    ensures refusal { IfErr result (IsNameRefusal (names_of tiles.now)) }
{
    let mut names = Vec::new(alloc);
    for (place, tile) in tiles.iter().enumerate() {
        let Ok(name) = TileName::parse(tile.name.as_slice()) else {
            return Err(Refusal::BadName(place));
        };
        let Ok(()) = names.push(name) else {
            return Err(Refusal::OutOfMemory);
        };
    }
    Ok(names)
}

/// The refusal for a layout's fault.
fn refusal_of(fault: LayoutFault) -> Refusal
    ensures { IsLayoutFaultAs fault result }
{
    match fault {
        LayoutFault::NoTiles => Refusal::NoTiles,
        LayoutFault::RepeatedTile(name) => Refusal::RepeatedTile(name),
        LayoutFault::BoxTooLarge => Refusal::BoxTooLarge,
        LayoutFault::OutOfMemory => Refusal::OutOfMemory,
    }
}
