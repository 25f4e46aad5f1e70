//! What the clauses about the bytes of a call rest on. A law is a function with nothing to do: its contract is the law.

ghost use Rattle.drain_c.specs.Laws.{BytesAreInputs};

use drain_hgt::laws::names_give_corners;

/// Whatever bytes are passed in, there are inputs that are these bytes, and under the header that a missing raster has
/// beside con those of each raster that isn't judged: what the clauses say of such inputs they say of each call.
pub fn bytes_are_inputs()
    ensures { BytesAreInputs }
{
    names_give_corners();
}
