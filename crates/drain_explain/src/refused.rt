//! What was expected and found in refused inputs: from the inputs as they were handed in, and a second look at files for
//! their lengths and the heights at a seam.

ghost use Rattle.std.specs.Prelude.{◌≡◌};
ghost use Rattle.drain_explain.specs.Names.{IfSome, ℕ, ℤ, names_of, IsLayoutOf};
ghost use Rattle.drain_explain.specs.RefusalDetails.{AreNeededBytes, IsDemDetailOf, IsDemLengthDetail, IsDetailOf, IsKindDetail, IsNameDetail, IsPixelSizeDetail, IsPositionDetail, IsRasterLengthDetail, IsSetDetail, IsShapeDetail, IsTileLengthDetail, kind_given, place_for, text_given};
ghost use Rattle.drain_grid.specs.PerProduct.{of_product};

use crate::refusal_detail::{
    seam_detail, sink_cell_detail, sink_line_detail, spacing_line_detail, spacing_rows_detail,
};
use drain_answer::Refusal;
use drain_device::ByteSource;
use drain_findings::{Extent, RefusalDetail};
use drain_grid::{HeightKind, PerProduct, Product, Shape};
use drain_header::{HeaderFault, Place, kind_said, parse_header_of};
use drain_hgt::tile::tile_length;
use drain_hgt::{TileInput, TileName};
use drain_mosaic::Layout;
use drain_raster::{needed_len, shape};
use drain_verdict::ground::GroundInput;
use drain_verdict::stages::layout_of;
use drain_verdict::{Given, RasterInput, dem_header};
use std::alloc::Global;

/// A second look at the files of inputs. It gives nothing if a file can't be looked at again.
pub trait FileLookup {
    /// In this state a look gives this height for the sample that begins at this byte of the tile in this place.
    ghost shows: { Self → ℕ → ℕ → ℤ → Type 0 };

    /// How many bytes the tile in this place of the list has.
    fn tile_length(&mut self, place: usize) -> Option<u64>;

    /// How many bytes the raster of elevations has.
    fn dem_length(&mut self) -> Option<u64>;

    /// How many bytes the product's raster has.
    fn raster_length(&mut self, product: Product) -> Option<u64>;

    /// The sample that begins at this byte of the tile in this place of the list.
    fn sample(&mut self, place: usize, start: u64) -> Option<i16>
        ensures { IfSome result (λ metres. shows self.old place start metres) };
}

/// Inputs of a ground, of whose refusals more is said than their line.
pub trait ExplainedInput<R: ByteSource>: GroundInput<R> {
    ghost use Rattle.drain_explain.specs.Names.{List, ℕ, ℤ, IfSome, Refusal};
    ghost use Rattle.drain_findings.specs.declared.refusal_detail.RefusalDetail.{RefusalDetail};
    ghost use Rattle.drain_grid.specs.declared.set_product.SetProduct.{SetProduct};
    ghost use Rattle.drain_grid.specs.PerProduct.{of_product};
    ghost use Rattle.drain_verdict.specs.Given.{Given};

    /// These are details of a refusal: by the inputs and their key, the headers of products, what is given beside, and the
    /// heights that a look at files gives.
    ghost are_details: { {L : Type 0} → (L → ℕ → ℕ → ℤ → Type 0) → Self.Key → List Self → (SetProduct → List ℕ) → Given → Refusal → RefusalDetail → Type 0 };

    /// The details of a refusal. None if there are none, memory runs out, or a file can't be looked at again.
    fn detail_of<L: FileLookup>(
        alloc: Global,
        refusal: Refusal,
        key: &Self::Key,
        inputs: &[Self],
        headers: &PerProduct<&[u8]>,
        given: &Given,
        look: &mut L,
    ) -> Option<RefusalDetail>
        ensures { IfSome result (are_details L.shows key.now inputs.now (λ p. (of_product headers.now p).now) given.now refusal) };
}

impl<R: ByteSource> ExplainedInput<R> for TileInput<R> {
    ghost use Rattle.drain_explain.specs.Names.{names_of};
    ghost use Rattle.drain_explain.specs.RefusalDetails.{IsDetailOf};

    ghost are_details = { λ shows side tiles texts given refusal detail. IsDetailOf shows side (names_of tiles) texts given refusal detail };

    fn detail_of<L: FileLookup>(
        alloc: Global,
        refusal: Refusal,
        side: &u32,
        tiles: &[TileInput<R>],
        headers: &PerProduct<&[u8]>,
        given: &Given,
        look: &mut L,
    ) -> Option<RefusalDetail> {
        tiles_detail(alloc, refusal, *side, tiles, headers, given, look)
    }
}

impl<R: ByteSource> ExplainedInput<R> for RasterInput<R> {
    ghost use Rattle.drain_explain.specs.RefusalDetails.{IsDetailOfDem};

    ghost are_details = { λ shows key inputs texts given refusal detail. IsDetailOfDem inputs texts given refusal detail };

    fn detail_of<L: FileLookup>(
        alloc: Global,
        refusal: Refusal,
        _key: &(),
        inputs: &[RasterInput<R>],
        headers: &PerProduct<&[u8]>,
        given: &Given,
        look: &mut L,
    ) -> Option<RefusalDetail> {
        let [dem] = inputs else {
            return None;
        };
        dem_detail(alloc, refusal, dem, headers, given, look)
    }
}

/// The details of a refusal of tiles, and of what lies on their mosaic.
fn tiles_detail<R, L: FileLookup>(
    alloc: Global,
    refusal: Refusal,
    side: u32,
    tiles: &[TileInput<R>],
    headers: &PerProduct<&[u8]>,
    given: &Given,
    look: &mut L,
) -> Option<RefusalDetail>
    ensures { IfSome result (IsDetailOf L.shows side (names_of tiles.now) (λ p. (of_product headers.now p).now) given.now refusal) }
{
    match refusal {
        Refusal::BadSide => Some(RefusalDetail::Side(side)),
        Refusal::BadName(place) => name_detail(alloc, tiles, place),
        Refusal::BadTileLength(tile) => {
            tile_length_detail(&mosaic(alloc, side, tiles)?, tile, look)
        }
        Refusal::SeamMismatch(cell) => seam_detail(&mosaic(alloc, side, tiles)?, cell, look),
        _ => {
            let layout = mosaic(alloc, side, tiles)?;
            let kind = HeightKind::Whole;
            let shape = layout.shape();
            let place = place_for(&layout);
            set_detail(alloc, refusal, kind, shape, place, headers, given, look)
        }
    }
}

/// The details of a refusal of one raster of elevations, and of what lies on it.
fn dem_detail<R, L: FileLookup>(
    alloc: Global,
    refusal: Refusal,
    dem: &RasterInput<R>,
    headers: &PerProduct<&[u8]>,
    given: &Given,
    look: &mut L,
) -> Option<RefusalDetail>
    ensures { IfSome result (IsDemDetailOf dem.now.header (λ p. (of_product headers.now p).now) given.now refusal) }
{
    match refusal {
        Refusal::BadPixelSize => pixel_size_detail(dem.header.as_slice()),
        Refusal::DemShort => dem_length_detail(dem.header.as_slice(), look),
        Refusal::BadHeader(product, fault) => {
            let header = dem_header(dem).ok()?;
            kind_detail(header.kind, product, fault, text_of(headers, product))
        }
        _ => {
            let header = dem_header(dem).ok()?;
            set_detail(
                alloc,
                refusal,
                header.kind,
                shape(&header),
                header.place,
                headers,
                given,
                look,
            )
        }
    }
}

/// The details of a refusal of products, of the list of sinks or of a spacing by row, on a grid of heights of this kind,
/// of this shape and place.
fn set_detail<L: FileLookup>(
    alloc: Global,
    refusal: Refusal,
    kind: HeightKind,
    shape: Shape,
    place: Place,
    headers: &PerProduct<&[u8]>,
    given: &Given,
    look: &mut L,
) -> Option<RefusalDetail>
    ensures { IfSome result (IsSetDetail kind shape place (λ p. (of_product headers.now p).now) given.now refusal) }
{
    match refusal {
        Refusal::WrongShape(product) => {
            shape_detail(kind, shape, product, text_of(headers, product))
        }
        Refusal::Misplaced(product) => {
            position_detail(kind, place, product, text_of(headers, product))
        }
        Refusal::RasterShort(product) => {
            raster_length_detail(kind, product, text_of(headers, product), look)
        }
        Refusal::BadSinkLine(number) => sink_line_detail(alloc, given.sinks, number),
        Refusal::SinkNotData(number) => sink_cell_detail(shape, given.sinks, number),
        Refusal::BadSpacingLine(number) => spacing_line_detail(alloc, &given.spacing, number),
        Refusal::SpacingRows(rows) => Some(spacing_rows_detail(shape, rows)),
        _ => None,
    }
}

/// The mosaic of the tiles.
fn mosaic<R>(alloc: Global, side: u32, tiles: &[TileInput<R>]) -> Option<Layout>
    ensures { IfSome result (IsLayoutOf side (names_of tiles.now)) }
{
    layout_of(alloc, side, tiles).ok()
}

/// The product's header as it was handed in, empty for one that no set has.
pub fn text_of<'a>(headers: &PerProduct<&'a [u8]>, product: Product) -> &'a [u8]
    ensures { result.now ≡ text_given (λ p. (of_product headers.now p).now) product }
{
    match product {
        Product::Con => headers.con,
        Product::Dir => headers.dir,
        Product::Acc => headers.acc,
        Product::Bas => headers.bas,
        Product::Rnk => headers.rnk,
        Product::Spl => &[],
    }
}

/// The kind of the product's numbers on heights of this kind: con's are heights, all others whole numbers.
fn kind_given(kind: HeightKind, product: Product) -> HeightKind
    ensures { result ≡ kind_given kind product }
{
    match product {
        Product::Con => kind,
        Product::Dir | Product::Acc | Product::Bas | Product::Rnk | Product::Spl => {
            HeightKind::Whole
        }
    }
}

/// The name in this place, as it was given.
fn name_detail<R>(alloc: Global, tiles: &[TileInput<R>], place: usize) -> Option<RefusalDetail>
    ensures { IfSome result (IsNameDetail (names_of tiles.now) place) }
{
    let tile = tiles.get(place)?;
    let name = Vec::from_slice(alloc, tile.name.as_slice()).ok()?;
    Some(RefusalDetail::Name(name))
}

/// These rows and columns, and those of the product's header, on heights of this kind.
pub fn shape_detail(
    kind: HeightKind,
    shape: Shape,
    product: Product,
    text: &[u8],
) -> Option<RefusalDetail>
    ensures { IfSome result (IsShapeDetail kind shape product text.now) }
{
    let header = parse_header_of(text, kind_given(kind, product)).ok()?;
    Some(RefusalDetail::Shape {
        product,
        expected: Extent {
            rows: shape.rows(),
            cols: shape.cols(),
        },
        found: Extent {
            rows: header.rows,
            cols: header.cols,
        },
    })
}

/// This place, and that of the product's header, on heights of this kind.
fn position_detail(
    kind: HeightKind,
    place: Place,
    product: Product,
    text: &[u8],
) -> Option<RefusalDetail>
    ensures { IfSome result (IsPositionDetail kind place product text.now) }
{
    let header = parse_header_of(text, kind_given(kind, product)).ok()?;
    Some(RefusalDetail::Position {
        product,
        expected: place,
        found: header.place,
    })
}

/// The kind of these heights and that of con's numbers, if con's header says the other and may be refused for that.
pub fn kind_detail(
    kind: HeightKind,
    product: Product,
    fault: HeaderFault,
    text: &[u8],
) -> Option<RefusalDetail>
    ensures { IfSome result (IsKindDetail kind product text.now) }
{
    let Product::Con = product else {
        return None;
    };
    if !may_be_for_its_kind(fault) {
        return None;
    }
    match (kind, kind_said(text)) {
        (HeightKind::Whole, HeightKind::Single) => Some(RefusalDetail::Kind {
            expected: HeightKind::Whole,
            found: HeightKind::Single,
        }),
        (HeightKind::Single, HeightKind::Whole) => Some(RefusalDetail::Kind {
            expected: HeightKind::Single,
            found: HeightKind::Whole,
        }),
        _ => None,
    }
}

/// Whether a header of another kind of numbers may have this fault for that alone.
fn may_be_for_its_kind(fault: HeaderFault) -> bool {
    matches!(
        fault,
        HeaderFault::BadValue(_) | HeaderFault::BadBits | HeaderFault::BadPixelType
    )
}

/// The place that a raster of the mosaic has.
fn place_for(layout: &Layout) -> Place
    ensures { result ≡ place_for layout.now }
{
    let spacing = layout.spacing();
    Place {
        ulx: layout.west_edge(),
        uly: layout.north_edge(),
        xdim: spacing,
        ydim: spacing,
    }
}

/// The bytes that a tile has, and those of the file.
fn tile_length_detail<L: FileLookup>(
    layout: &Layout,
    tile: TileName,
    look: &mut L,
) -> Option<RefusalDetail>
    ensures { IfSome result (IsTileLengthDetail layout.now tile) }
{
    for place in 0..layout.len() {
        if layout.name(place) == tile {
            return Some(RefusalDetail::TileLength {
                tile,
                expected: tile_length(layout.side()) as u64,
                found: look.tile_length(place)?,
            });
        }
    }
    None
}

/// The bytes that a raster needs by its header, on heights of this kind, and those of the file.
fn raster_length_detail<L: FileLookup>(
    kind: HeightKind,
    product: Product,
    text: &[u8],
    look: &mut L,
) -> Option<RefusalDetail>
    ensures { IfSome result (IsRasterLengthDetail kind product text.now) }
{
    Some(RefusalDetail::RasterLength {
        product,
        expected: bytes_needed(kind_given(kind, product), text)?,
        found: look.raster_length(product)?,
    })
}

/// The sizes of a pixel by the header of the raster of elevations.
fn pixel_size_detail(text: &[u8]) -> Option<RefusalDetail>
    ensures { IfSome result (IsPixelSizeDetail text.now) }
{
    let header = parse_header_of(text, kind_said(text)).ok()?;
    Some(RefusalDetail::PixelSize {
        xdim: header.place.xdim,
        ydim: header.place.ydim,
    })
}

/// The bytes that the raster of elevations needs by its header, and those of the file.
fn dem_length_detail<L: FileLookup>(text: &[u8], look: &mut L) -> Option<RefusalDetail>
    ensures { IfSome result (IsDemLengthDetail text.now) }
{
    Some(RefusalDetail::DemLength {
        expected: bytes_needed(kind_said(text), text)?,
        found: look.dem_length()?,
    })
}

/// The bytes that a raster of numbers of this kind needs by its header.
fn bytes_needed(kind: HeightKind, text: &[u8]) -> Option<u64>
    ensures { IfSome result (AreNeededBytes kind text.now) }
{
    let header = parse_header_of(text, kind).ok()?;
    Some(needed_len(&header) as u64)
}
