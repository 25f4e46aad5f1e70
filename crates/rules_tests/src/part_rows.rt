//! A row of the six parts of an example, whose elevations and products are kept as numbers or as the bytes of their
//! pixels.

ghost use Rattle.std.proofs.Props.{props};
ghost use Rattle.std.specs.Prelude.{◌≡◌, ◌≤◌, IfOk, IfSome, length};
ghost use Rattle.std.specs.List.{All};
ghost use Rattle.drain_grid.specs.PerProduct.{of_product, per_product};
ghost use Rattle.drain_grid.specs.Values.{IsPixel};
ghost use Rattle.drain_rules.specs.Rows.{AreRowNumbers};

use crate::examples::{Part, is_pixel, numbers_at};
use drain_grid::{Judged, PerProduct};
use drain_kernel::{Lanes, Slopes};
use drain_pixels::{GroundRow, PixelKind, PixelRow, Voids};
use drain_rules::RowView;
use std::alloc::Global;
use std::test::Fail;

/// The rows of six parts, one part's after the other's, and the columns of each. What is kept of the pixels of
/// elevations, and which number means a void.
#[derive(Clone, Copy)]
pub struct PartRows<'a> {
    pub numbers: &'a [i64],
    pub rows: u8,
    pub cols: u16,
    pub ground: Ground,
}

impl<'a> PartRows<'a> {
    /// A row of a part, empty where it has no number; none if it isn't there.
    fn row_of(&self, part: Part, row: Option<u8>) -> Option<&'a [i64]> {
        let Some(row) = row else {
            return Some(&[]);
        };
        let rows_before = part as usize * self.rows as usize + row as usize;
        numbers_at(self.numbers, rows_before, self.cols.into())
    }

    /// A row of a product, kept as this kind. It fails if the row has another number of numbers.
    fn product_of(
        &self,
        alloc: Global,
        product: (Part, PixelKind),
        row: Option<u8>,
        count: usize,
    ) -> Result<PixelRow, Fail>
        ensures { IfOk result (λ row. (length row ≡ count) × All IsPixel row) }
    {
        let (part, kind) = product;
        match self.row_of(part, row) {
            Some(numbers) if numbers.len() == count => pixel_row(alloc, kind, numbers),
            _ => Err("as many numbers of each".into()),
        }
    }
}

/// What is kept of the pixels of elevations, and the number that means a void, if any does.
pub type Ground = (PixelKind, Option<i64>);

/// The elevations of tiles.
pub const OF_TILES: Ground = (PixelKind::Any, Some(-32768));

/// What is kept of the pixels of con, dir, acc, bas and rnk.
pub type Kinds = [PixelKind; 5];

/// Numbers of each.
pub const AS_NUMBERS: Kinds = [PixelKind::Any; 5];

/// The bytes of these numbers, the least first, as pixels of this kind. It fails if a pixel can't encode one.
fn bytes_of(alloc: Global, kind: PixelKind, numbers: &[i64]) -> Result<Vec<u8>, Fail> {
    let mut bytes = Vec::new(alloc);
    for number in numbers {
        match kind {
            PixelKind::U8 => bytes.push(u8::try_from(*number)?)?,
            PixelKind::I16 => bytes.extend_from_slice(&i16::try_from(*number)?.to_le_bytes())?,
            PixelKind::U16 => bytes.extend_from_slice(&u16::try_from(*number)?.to_le_bytes())?,
            PixelKind::I32 => bytes.extend_from_slice(&i32::try_from(*number)?.to_le_bytes())?,
            PixelKind::U32 => bytes.extend_from_slice(&u32::try_from(*number)?.to_le_bytes())?,
            PixelKind::F32 | PixelKind::Any => return Err("a kind of pixels".into()),
        }
    }
    Ok(bytes)
}

/// The row of these numbers, kept as this kind.
fn pixel_row(alloc: Global, kind: PixelKind, numbers: &[i64]) -> Result<PixelRow, Fail>
    ensures { IfOk result (λ row. (length row ≡ length numbers.now) × All IsPixel row) }
{
    if !numbers.iter().all(|number| is_pixel(*number)) {
        return Err("numbers of pixels".into());
    }
    let mut row = PixelRow::new(alloc);
    if kind == PixelKind::Any {
        row.put_numbers(Vec::from_slice(alloc, numbers)?);
    } else {
        row.put_bytes(kind, bytes_of(alloc, kind, numbers)?);
    }
    if row.len() != numbers.len() {
        return Err("a number for each".into());
    }
    Ok(row)
}

/// The row of the elevations of these numbers.
fn ground_row(alloc: Global, ground: Ground, numbers: &[i64]) -> Result<GroundRow, Fail>
    ensures { IfOk result (λ row. All (λ z. IfSome z IsPixel) row) }
{
    let (kind, void) = ground;
    let pixels = pixel_row(alloc, kind, numbers)?;
    let mut row = GroundRow::new(alloc);
    row.put_pixels(Voids::of(void), pixels);
    Ok(row)
}

/// A row of the six parts, or none.
#[derive(Drop)]
pub struct PartRow {
    z: GroundRow,
    products: PerProduct<PixelRow>,
    ghost whole: { AreRowNumbers (record { z = z; products = per_product (λ p. of_product products p) }) } by { Prim.hlevel props },
}

impl PartRow {
    /// A row, its products kept as these kinds.
    pub fn new(
        alloc: Global,
        parts: PartRows<'_>,
        row: Option<u8>,
        kinds: Kinds,
    ) -> Result<PartRow, Fail> {
        let numbers = parts.row_of(Part::Elevations, row).unwrap_or(&[]);
        let z = [ground_row(alloc, parts.ground, numbers)?];
        let count = z[0].len();
        if count > 28801 {
            return Err("a row".into());
        }
        let [con, dir, acc, bas, rnk] = kinds;
        // In arrays, which are dropped by one call: each way out would take the steps of every member.
        let con = [parts.product_of(alloc, (Part::Con, con), row, count)?];
        let dir = [parts.product_of(alloc, (Part::Dir, dir), row, count)?];
        let acc = [parts.product_of(alloc, (Part::Acc, acc), row, count)?];
        let bas = [parts.product_of(alloc, (Part::Bas, bas), row, count)?];
        let rnk = parts.product_of(alloc, (Part::Rnk, rnk), row, count)?;
        let [z] = z;
        let [con] = con;
        let [dir] = dir;
        let [acc] = acc;
        let [bas] = bas;
        Ok(part_row(z, con, dir, acc, bas, rnk))
    }

    /// The row with these marks, its cells so far apart, and with the lanes of its numbers if they are to be taken and fit.
    pub fn view<'a>(
        &'a self,
        marks: &'a [bool],
        slopes: &'a Slopes,
        judged: Judged,
        lanes: Option<&'a mut Lanes>,
    ) -> RowView<'a> {
        let z = &self.z;
        let products = PerProduct {
            con: &self.products.con,
            dir: &self.products.dir,
            acc: &self.products.acc,
            bas: &self.products.bas,
            rnk: &self.products.rnk,
        };
        match lanes {
            Some(lanes) => laned_view(z, marks, slopes, products, judged, lanes),
            None => RowView::new(z, marks, slopes, products, None),
        }
    }
}

/// The row of these elevations and products.
fn part_row(
    z: GroundRow,
    con: PixelRow,
    dir: PixelRow,
    acc: PixelRow,
    bas: PixelRow,
    rnk: PixelRow,
) -> PartRow
    requires narrow { length z ≤ 28801 }
    requires samples { All (λ h. IfSome h IsPixel) z }
    requires con { (length con ≡ length z) × All IsPixel con }
    requires dir { (length dir ≡ length z) × All IsPixel dir }
    requires acc { (length acc ≡ length z) × All IsPixel acc }
    requires bas { (length bas ≡ length z) × All IsPixel bas }
    requires rnk { (length rnk ≡ length z) × All IsPixel rnk }
{
    let products = PerProduct {
        con,
        dir,
        acc,
        bas,
        rnk,
    };
    PartRow { z, products }
}

/// The row of these numbers and marks, with the lanes of its numbers where they fit.
fn laned_view<'a>(
    z: &'a GroundRow,
    marks: &'a [bool],
    slopes: &'a Slopes,
    products: PerProduct<&'a PixelRow>,
    judged: Judged,
    lanes: &'a mut Lanes,
) -> RowView<'a>
    requires { AreRowNumbers (record { z = z.now; products = per_product (λ p. (of_product products p).now) }) }
{
    if lanes.take(z, &products, judged, false) {
        RowView::new(z, marks, slopes, products, Some(lanes))
    } else {
        RowView::new(z, marks, slopes, products, None)
    }
}
