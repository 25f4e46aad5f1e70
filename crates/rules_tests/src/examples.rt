//! Examples: parts put together from numbers, and the verdict on them.

ghost use Rattle.std.specs.Prelude.{◌≡◌, ◌↔◌, IsTrue, IfOk};
ghost use Rattle.drain_grid.specs.Values.{IsNoData, IsPixel};

use drain_grid::values::{GREATEST_PIXEL, LEAST_PIXEL};
use drain_grid::{
    Counts, Elevation, PerProduct, Product, ProductSet, Raster, Rule, SetProduct, Shape, Sinks,
    Verdict, parse_sinks,
};
use drain_rules::verdict_of;
use std::alloc::Global;
use std::fmt::Debug;
use std::process::Abort;
use std::test::Fail;
use worked::sets::product_set;

/// The parts of an example, in their order: the elevations and the five products.
#[derive(Clone, Copy, Debug)]
pub enum Part {
    Elevations,
    Con,
    Dir,
    Acc,
    Bas,
    Rnk,
}

/// Whether some pixel of at most 32 bits encodes the number.
pub fn is_pixel(number: i64) -> bool
    ensures { IsTrue result ↔ IsPixel number }
{
    (LEAST_PIXEL..=GREATEST_PIXEL).contains(&number)
}

/// A raster of the numbers, each of which a pixel must be able to encode.
fn raster(alloc: Global, shape: Shape, nodata: i64, numbers: &[i64]) -> Result<Raster, Fail>
    requires { IsNoData nodata }
    ensures { IfOk result (λ raster. raster.extent ≡ shape) }
{
    let mut pixels = Vec::new(alloc);
    for number in numbers {
        if !is_pixel(*number) {
            return Err("a pixel".into());
        }
        pixels.push(*number)?;
    }
    if pixels.len() != shape.cells() {
        return Err("a number for each cell".into());
    }
    Ok(Raster::new(shape, nodata, pixels))
}

/// The elevations of the numbers; -32768 is a void.
pub fn elevation(alloc: Global, shape: Shape, numbers: &[i64]) -> Result<Elevation, Fail>
    ensures { IfOk result (λ elevation. elevation.extent ≡ shape) }
{
    let mut samples = Vec::new(alloc);
    for number in numbers {
        samples.push(i16::try_from(*number)?)?;
    }
    if samples.len() != shape.cells() {
        return Err("a sample for each cell".into());
    }
    Ok(Elevation::new(shape, samples))
}

/// The numbers at a place, with `count` numbers at each, if there are that many.
pub fn numbers_at(numbers: &[i64], place: usize, count: usize) -> Option<&[i64]> {
    let start = place.saturating_mul(count);
    numbers.get(start..start.saturating_add(count))
}

/// The numbers of a part, of this many cells; none if there are fewer parts.
fn part_of(numbers: &[i64], cells: usize, part: Part) -> &[i64] {
    numbers_at(numbers, part as usize, cells).unwrap_or(&[])
}

/// The part of a product, and its number for no data: the default one, but of con.
fn product_of(product: SetProduct, con_nodata: i16) -> (Part, i64)
    ensures { IsNoData result.1 }
{
    match product {
        SetProduct::Con => (Part::Con, con_nodata.into()),
        SetProduct::Dir => (Part::Dir, Product::Dir.default_no_data()),
        SetProduct::Acc => (Part::Acc, Product::Acc.default_no_data()),
        SetProduct::Bas => (Part::Bas, Product::Bas.default_no_data()),
        SetProduct::Rnk => (Part::Rnk, Product::Rnk.default_no_data()),
    }
}

/// The products of an example, whose parts come one after the other. Con's no-data number is given; the others are
/// defaults.
pub fn products(
    alloc: Global,
    shape: Shape,
    con_nodata: i16,
    numbers: &[i64],
) -> Result<ProductSet, Fail>
    ensures { IfOk result (λ products. products.con.extent ≡ shape) }
{
    let made = |product: SetProduct| -> Result<Raster, Fail>
        ensures { IfOk result (λ raster. raster.extent ≡ shape) }
    {
        let (part, nodata) = product_of(product, con_nodata);
        raster(alloc, shape, nodata, part_of(numbers, shape.cells(), part))
    };
    Ok(product_set(PerProduct::from_each(&made)?))
}

/// The verdict on an example with these sinks: its parts one after the other, each in row order.
fn verdict_with_sinks(
    alloc: Global,
    con_nodata: i16,
    (rows, cols): (u32, u32),
    numbers: &[i64],
    sinks: &Sinks,
) -> Result<Verdict, Fail> {
    let Some(shape) = Shape::new(rows, cols) else {
        return Err("a shape".into());
    };
    let cells = shape.cells();
    if numbers.len() != 6 * cells {
        return Err("six parts".into());
    }
    let elevation = elevation(alloc, shape, &numbers[..cells])?;
    let products = products(alloc, shape, con_nodata, numbers)?;
    verdict_on_parts(alloc, &elevation, sinks, &products)
}

/// The verdict on parts that are put together.
fn verdict_on_parts(
    alloc: Global,
    elevation: &Elevation,
    sinks: &Sinks,
    products: &ProductSet,
) -> Result<Verdict, Fail>
    requires { elevation.now.extent ≡ products.now.con.extent }
{
    Ok(verdict_of(alloc, elevation, sinks, products)?)
}

/// The verdict on an example without sinks.
pub fn verdict_with(
    alloc: Global,
    con_nodata: i16,
    rows: u32,
    cols: u32,
    numbers: &[i64],
) -> Result<Verdict, Fail> {
    let none = Sinks::none(alloc);
    verdict_with_sinks(alloc, con_nodata, (rows, cols), numbers, &none)
}

/// The same where the no-data numbers are the defaults.
pub fn verdict_on(alloc: Global, rows: u32, cols: u32, numbers: &[i64]) -> Result<Verdict, Fail> {
    verdict_with(alloc, -32768, rows, cols, numbers)
}

/// The same with the sinks that a text lists.
pub fn verdict_listing(
    alloc: Global,
    text: &[u8],
    rows: u32,
    cols: u32,
    numbers: &[i64],
) -> Result<Verdict, Fail> {
    let sinks = parse_sinks(alloc, text)?;
    verdict_with_sinks(alloc, -32768, (rows, cols), numbers, &sinks)
}

/// The place of a part's cell among the numbers of an example of this side.
fn place_of(side: u8, part: Part, row: u8, col: u8) -> usize {
    let rows_before = (part as usize)
        .saturating_mul(side.into())
        .saturating_add(row.into());
    rows_before
        .saturating_mul(side.into())
        .saturating_add(col.into())
}

/// The example of this side with one number changed.
pub fn changed(
    alloc: Global,
    side: u8,
    numbers: &[i64],
    part: Part,
    row: u8,
    col: u8,
    number: i64,
) -> Result<Vec<i64>, Fail> {
    let mut copy = Vec::from_slice(alloc, numbers)?;
    match copy.get_mut(place_of(side, part, row, col)) {
        Some(found) => *found = number,
        None => return Err("a place".into()),
    }
    Ok(copy)
}

/// Ends the test if the two verdicts differ, and reports the case. A call of it is cheaper to prove than an assertion
/// in place.
pub fn same(rt: &impl Abort, case: &str, given: Verdict, expected: Verdict) {
    assert_eq!(rt; given, expected, "{case}");
}

/// The same of any two.
pub fn equal<C: Debug + Drop, T: PartialEq + Debug + Drop>(
    rt: &impl Abort,
    case: C,
    given: T,
    expected: T,
) {
    assert_eq!(rt; given, expected, "{case:?}");
}

pub fn rejected(rule: Rule, row: u8, col: u8) -> Verdict {
    Verdict::Rejected {
        rule,
        row: row.into(),
        col: col.into(),
    }
}

pub fn accepted(rows: u32, cols: u32, data_cells: u32, raised: u32, outlets: u32) -> Verdict {
    Verdict::Accepted(Counts {
        rows,
        cols,
        data_cells,
        raised,
        outlets,
    })
}
