//! That each header has a text, also where memory for it was refused. The bodies only show this to the prover.

ghost use Rattle.drain_maker.specs.Names.{ℕ, IfSome, List, IsFloatNumber, IsFloatLine, IsTextOf};

use drain_floats::word_of;
use drain_grid::HeightKind;
use drain_header::Header;
use ryu::Buffer;

/// A header has a text.
pub(crate) fn has_text(header: &Header)
    ensures { (text : List ℕ) × IsTextOf header.now text }
{
    match header.kind {
        HeightKind::Whole => {}
        HeightKind::Single => has_line(header.nodata),
    }
}

/// And a no-data number of floats has a line.
fn has_line(nodata: Option<i64>)
    requires { IfSome nodata IsFloatNumber }
    ensures { (end : List ℕ) × IsFloatLine nodata end }
{
    match nodata {
        Some(number) => {
            let mut word = Buffer::new();
            word_of(number, &mut word);
        }
        None => {}
    }
}
