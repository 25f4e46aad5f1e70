//! Numbers of a few bits, copied as numbers of 64 bits.

ghost use Rattle.std.specs.Prelude.{◌≡◌, ◌≤◌, ◌<◌, ◌+◌, ℕ, pos, All, length, slice_index, slice_index_or};
ghost use Rattle.drain_grid.specs.Grid.{IsSample};

/// Copies bytes from this place on, one to each place.
pub fn copy_bytes(out: &mut [i64], bytes: &[u8], first: usize)
    requires { first + length out.old ≤ length bytes.now }
    ensures counted { length out.new ≡ length out.old }
    ensures copied { (k : ℕ) → k < length out.old → slice_index_or out.new k (pos 0) ≡ pos (slice_index bytes.now (first + k)) }
{
    let bytes = &bytes[first..first + out.len()];
    for k in 0..bytes.len() {
        out[k] = i64::from(bytes[k]);
    }
}

/// Copies heights from this place on, one to each place.
pub fn copy_heights(out: &mut [i64], heights: &[i16], first: usize)
    requires { first + length out.old ≤ length heights.now }
    ensures counted { length out.new ≡ length out.old }
    ensures copied { (k : ℕ) → k < length out.old → slice_index_or out.new k (pos 0) ≡ slice_index_or heights.now (first + k) (pos 0) }
    ensures samples { All IsSample out.new }
{
    let heights = &heights[first..first + out.len()];
    for k in 0..heights.len() {
        out[k] = wide(heights[k]);
    }
}

/// The height in 64 bits.
fn wide(height: i16) -> i64
    ensures value { result ≡ height }
    ensures sample { IsSample result }
{
    i64::from(height)
}

/// Copies counts from this place on, one to each place.
pub fn copy_counts(out: &mut [i64], counts: &[u32], first: usize)
    requires { first + length out.old ≤ length counts.now }
    ensures counted { length out.new ≡ length out.old }
    ensures copied { (k : ℕ) → k < length out.old → slice_index_or out.new k (pos 0) ≡ pos (slice_index counts.now (first + k)) }
{
    let counts = &counts[first..first + out.len()];
    for k in 0..counts.len() {
        out[k] = i64::from(counts[k]);
    }
}
