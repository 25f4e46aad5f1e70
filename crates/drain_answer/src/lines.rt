//! The lines of answers, without a line end: words and numbers, put together on the stack.

ghost use Rattle.std.specs.Prelude.{◌≡◌, ◌+◌, ◌≤◌, ◌++◌, length, codes, decimal};
ghost use Rattle.arrayvec.specs.ArrayString.{array_string_len};
ghost use Rattle.drain_grid.specs.Product.{product_name};
ghost use Rattle.drain_hgt.specs.Name.{name_of as tile_name};
ghost use Rattle.drain_answer.specs.AuditLines.{audit_report_line, audit_line, no_end_line};
ghost use Rattle.drain_answer.specs.FillLines.{fill_line, fill_accepted_line};
ghost use Rattle.drain_answer.specs.Lines.{report_line, refusal_line, verdict_line, accepted_line, counted_line, rejected_line};

use crate::outcome::AuditVerdict;
use crate::refusal::Refusal;
use arrayvec::ArrayString;
use drain_grid::{Cell, Counts, FillCounts, FillRefusal, FillVerdict, Product, Rule, Verdict};
use drain_header::HeaderFault;
use drain_hgt::TileName;
use itoa::Buffer;

/// The longest line has fewer bytes.
pub const LINE_LENGTH: usize = 160;

/// A line to which words are appended.
pub type Line = ArrayString<LINE_LENGTH>;

/// Appends a whole number of 32 bits, in decimal digits without leading zeros.
pub fn push_number(line: &mut Line, number: u32)
    requires { array_string_len line.old + 10 ≤ LINE_LENGTH }
    ensures text { line.new.bytes ≡ line.old.bytes ++ decimal number }
    ensures len { array_string_len line.new ≤ array_string_len line.old + 10 }
{
    let mut digits = Buffer::new();
    line.push_str(digits.format(number));
}

/// Appends a whole number of 64 bits, in decimal digits without leading zeros.
pub fn push_count(line: &mut Line, count: u64)
    requires { array_string_len line.old + 20 ≤ LINE_LENGTH }
    ensures text { line.new.bytes ≡ line.old.bytes ++ decimal count }
    ensures len { array_string_len line.new ≤ array_string_len line.old + 20 }
{
    let mut digits = Buffer::new();
    line.push_str(digits.format(count));
}

/// A line of these words.
pub fn words(text: &str) -> Line
    requires { length text.now ≤ LINE_LENGTH }
    ensures { result.bytes ≡ text.now }
{
    let mut line = Line::new();
    line.push_str(text);
    line
}

/// The line of the answer of a check, without a line end, in ASCII.
pub fn report(answer: &Result<Verdict, Refusal>) -> ArrayString<LINE_LENGTH>
    ensures { result.bytes ≡ report_line answer.now }
{
    match answer {
        Ok(verdict) => verdict_line(verdict),
        Err(refusal) => refusal_line(*refusal),
    }
}

/// The line of a refusal, or of a failure.
pub fn refusal_line(refusal: Refusal) -> Line
    ensures { result.bytes ≡ refusal_line refusal }
{
    match refusal {
        Refusal::BadSide => words("refused BadSide"),
        Refusal::BadName(place) => bad_name(place),
        Refusal::NoTiles => words("refused NoTiles"),
        Refusal::RepeatedTile(name) => of_tile("refused RepeatedTile ", name),
        Refusal::BoxTooLarge => words("refused BoxTooLarge"),
        Refusal::BadHeader(product, fault) => bad_header(product, fault),
        Refusal::WrongShape(product) => of_product("refused WrongShape ", product),
        Refusal::Misplaced(product) => of_product("refused Misplaced ", product),
        Refusal::BadTileLength(name) => of_tile("refused BadTileLength ", name),
        Refusal::RasterShort(product) => of_product("refused RasterShort ", product),
        Refusal::SeamMismatch(cell) => seam_mismatch(cell),
        Refusal::BadSinkLine(line) => of_number("refused BadSinkLine ", line),
        Refusal::SinkNotData(line) => of_number("refused SinkNotData ", line),
        Refusal::BadSpacingLine(line) => of_number("refused BadSpacingLine ", line),
        Refusal::SpacingRows(rows) => of_number("refused SpacingRows ", rows),
        Refusal::BadDemHeader(fault) => bad_dem_header(fault),
        Refusal::BadPixelSize => words("refused BadPixelSize dem"),
        Refusal::DemShort => words("refused RasterShort dem"),
        Refusal::OutOfMemory => words("failed OutOfMemory"),
        Refusal::ReadFailed => words("failed ReadFailed"),
    }
}

/// These words and a tile's name.
fn of_tile(text: &str, name: TileName) -> Line
    requires { length text.now ≤ 40 }
    ensures { result.bytes ≡ text.now ++ tile_name name }
{
    let mut line = words(text);
    line.push_str(name.text().as_str());
    line
}

/// These words and a product's name.
fn of_product(text: &str, product: Product) -> Line
    requires { length text.now ≤ 40 }
    ensures { result.bytes ≡ text.now ++ product_name product }
{
    let mut line = words(text);
    line.push_str(product.name());
    line
}

/// These words and a whole number.
fn of_number(text: &str, value: u64) -> Line
    requires { length text.now ≤ 40 }
    ensures { result.bytes ≡ text.now ++ decimal value }
{
    let mut line = words(text);
    let mut digits = Buffer::new();
    line.push_str(digits.format(value));
    line
}

/// The line that the name in this place is no tile's.
fn bad_name(place: usize) -> Line
    ensures { result.bytes ≡ codes "refused BadName " ++ decimal place }
{
    let mut line = words("refused BadName ");
    let mut digits = Buffer::new();
    line.push_str(digits.format(place));
    line
}

/// The line that a product's header has a fault.
fn bad_header(product: Product, fault: HeaderFault) -> Line
    ensures { result.bytes ≡ refusal_line (Refusal.BadHeader product fault) }
{
    let mut line = of_product("refused BadHeader ", product);
    line.push_str(" ");
    line.push_str(fault.text().as_str());
    line
}

/// The line that the header of a raster of elevations has a fault.
fn bad_dem_header(fault: HeaderFault) -> Line
    ensures { result.bytes ≡ refusal_line (Refusal.BadDemHeader fault) }
{
    let mut text = words("refused BadHeader dem ");
    text.push_str(fault.text().as_str());
    text
}

/// The line that two tiles differ at a cell.
fn seam_mismatch(cell: Cell) -> Line
    ensures { result.bytes ≡ refusal_line (Refusal.SeamMismatch cell) }
{
    let mut line = words("refused SeamMismatch row=");
    push_number(&mut line, cell.row);
    line.push_str(" col=");
    push_number(&mut line, cell.col);
    line
}

/// The line of a verdict, without a line end, in ASCII.
pub fn verdict_line(verdict: &Verdict) -> Line
    ensures { result.bytes ≡ verdict_line verdict.now }
{
    match verdict {
        Verdict::Accepted(counts) => accepted(counts),
        Verdict::Rejected { rule, row, col } => rejected(*rule, *row, *col),
    }
}

/// The line of an acceptance, with its counts.
pub fn accepted(counts: &Counts) -> Line
    ensures { result.bytes ≡ accepted_line counts.now }
{
    let data_cells = u64::from(counts.data_cells);
    let raised = u64::from(counts.raised);
    let mut line = counted(counts.rows, counts.cols, data_cells, raised);
    line.push_str(" outlets=");
    push_number(&mut line, counts.outlets);
    line
}

/// The line of an acceptance up to the raised cells; the cells of a union are more than 32 bits count.
pub fn counted(rows: u32, cols: u32, data_cells: u64, raised: u64) -> Line
    ensures text { result.bytes ≡ counted_line rows cols data_cells raised }
    ensures len { array_string_len result ≤ 100 }
{
    let mut line = words("accepted rows=");
    push_number(&mut line, rows);
    line.push_str(" cols=");
    push_number(&mut line, cols);
    line.push_str(" data=");
    push_count(&mut line, data_cells);
    line.push_str(" raised=");
    push_count(&mut line, raised);
    line
}

/// The line that names the first rule that fails, and the first cell where it does.
pub fn rejected(rule: Rule, row: u32, col: u32) -> Line
    ensures { result.bytes ≡ rejected_line rule row col }
{
    let mut line = words("rejected rule=");
    push_number(&mut line, u32::from(rule.number()));
    line.push_str(" ");
    line.push_str(rule.name());
    line.push_str(" row=");
    push_number(&mut line, row);
    line.push_str(" col=");
    push_number(&mut line, col);
    line
}

/// The line of the answer of an audit, without a line end, in ASCII. Except for paths without an end it is that of a
/// check.
pub fn audit_report(answer: &Result<AuditVerdict, Refusal>) -> ArrayString<LINE_LENGTH>
    ensures { result.bytes ≡ audit_report_line answer.now }
{
    match answer {
        Ok(verdict) => audit_line(verdict),
        Err(why) => refusal_line(*why),
    }
}

/// The line of the verdict of an audit.
fn audit_line(verdict: &AuditVerdict) -> Line
    ensures { result.bytes ≡ audit_line verdict.now }
{
    match verdict {
        AuditVerdict::Accepted(counts) => accepted(counts),
        AuditVerdict::Rejected { rule, row, col } => rejected(*rule, *row, *col),
        AuditVerdict::NoEnd { row, col } => no_end(*row, *col),
    }
}

/// The line that the path of a cell doesn't end.
fn no_end(row: u32, col: u32) -> Line
    ensures { result.bytes ≡ no_end_line row col }
{
    let mut told = words("rejected NoEnd row=");
    push_number(&mut told, row);
    told.push_str(" col=");
    push_number(&mut told, col);
    told
}

/// The line of the answer to a fill input, without a line end, in ASCII.
pub fn fill_report(answer: &Result<FillVerdict, FillRefusal>) -> Line
    ensures { result.bytes ≡ fill_line answer.now }
{
    match answer {
        Ok(FillVerdict::Accepted(counts)) => fill_accepted(counts),
        Ok(FillVerdict::Rejected { rule, row, col }) => rejected(*rule, *row, *col),
        Err(FillRefusal::BadSide) => words("refused BadSide"),
        Err(FillRefusal::BadLength) => words("refused BadLength"),
    }
}

/// The line of the acceptance of a fill input, with its counts.
fn fill_accepted(counts: &FillCounts) -> Line
    ensures { result.bytes ≡ fill_accepted_line counts.now }
{
    let data_cells = u64::from(counts.data_cells);
    let raised = u64::from(counts.raised);
    counted(counts.rows, counts.cols, data_cells, raised)
}
