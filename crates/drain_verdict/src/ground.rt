//! Where elevations come from: what the check and the audit need of whatever gives them.
//!
//! A ground is read through a list of inputs, of which a key says what they alone don't. Its frame is known before any body
//! is read: its rows, its columns, and where rasters must lie. It gives its rows one at a time, and after the last it says
//! why it is refused. What its bytes mean is hidden in `Texts`; rings around it are proved by the laws below alone.

ghost use Rattle.std.specs.Prelude.{◌≡◌, ◌≢◌, ◌↔◌, ◌+◌, ◌<◌, ◌≤◌};
ghost use Rattle.drain_verdict.specs.Names.{ℕ, List, length, map, None, Some, Bool, IsTrue, false, OnOk, IfErr, IfOk, IfSome, SomeReadFails, MAX_LENGTH, HeightKind, Extent, IsPixel, Place};
ghost use Rattle.std.specs.List.{All};
ghost use Rattle.drain_verdict.specs.Ground.{AreGroundRows, Ground, GroundToGive, IsLaidOn, IsToldOf, NoneRefusesBefore, ground_row};
ghost use Rattle.drain_verdict.specs.GroundSets.{IsGroundRefusal};
ghost use Rattle.drain_verdict.specs.Reading.{IsOfReading, gave_up, told_by};
ghost use Rattle.drain_verdict.specs.Refusals.{IsOfBodies};

use drain_answer::Refusal;
use drain_device::ByteSource;
use drain_grid::{HeightKind, OutOfMemory, Shape};
use drain_header::Header;
use drain_pixels::GroundRow;
use std::alloc::Global;

/// One input of a ground; its elevations come from a list of such inputs, from sources of this type.
pub trait GroundInput<R: ByteSource>: Sized {
    /// What a caller says besides the inputs: of tiles their side, of one raster nothing.
    type Key;

    /// What is known of the ground before any body is read.
    type Frame: Drop;

    /// A reader of its rows.
    type Rows: Drop;

    /// What the inputs say.
    ghost Texts: { Type 0 };

    /// What that means.
    ghost terrain: { Texts → Ground };

    /// What an answer says of the elevations: those of tiles are one, and a raster's are its pixels.
    ghost is_told: { Texts → Type 0 };

    /// A ground may have these inputs: any tiles, and one raster.
    ghost admits: { List Self → Type 0 };

    /// With this key the inputs say this, where the bytes of their sources are known.
    ghost encodes: { Self.Key → List Self → Texts → Type 0 };

    /// The rows that it is to give, and what is to be reported after the last.
    ghost rows_of: { Texts → GroundToGive };

    /// The key of a frame.
    ghost key_of: { Self.Frame → Self.Key };

    /// The frame is that of what the inputs say.
    ghost framed: { Self.Frame → Texts → Type 0 };

    /// What numbers of its heights stand for.
    ghost kind: { Self.Frame → HeightKind };

    /// Its rows and columns.
    ghost extent: { Self.Frame → Extent };

    /// A raster with this place lies on it.
    ghost holds: { Self.Frame → Place → Type 0 };

    /// How many inputs it has.
    ghost size: { Self.Frame → ℕ };

    /// The frame was found right for these inputs.
    ghost fit: { Self.Frame → List Self → Type 0 };

    /// The first row is to come.
    ghost begun: { Self.Frame → Self.Rows → Type 0 };

    /// How many inputs the reader borrows.
    ghost count: { Self.Rows → ℕ };

    /// This number of rows was requested of what is to be given.
    ghost after: { Self.Rows → List Self → GroundToGive → ℕ → Type 0 };

    /// What was read from the one state to the other; a source failed for good exactly if this is so.
    ghost has_read: { Self.Rows × List Self → Self.Rows × List Self → Bool → Type 0 };

    /// From the one state of the inputs to the other no more was read than is needed.
    ghost within: { Self.Key → List Self → List Self → Type 0 };

    /// What no reading changes of the inputs.
    ghost kept: { List Self → List Self → Type 0 };

    /// The sources of the inputs.
    ghost devices: { List Self → List R };

    /// The frame, or the first refusal that applies, which comes before any header of a product is read. No device is called.
    fn frame(alloc: Global, key: &Self::Key, inputs: &[Self]) -> Result<Self::Frame, Refusal>
        requires admitted { admits inputs.now }
        ensures fit { IfOk result (λ frame. fit frame inputs.now) }
        ensures keyed { IfOk result (λ frame. key_of frame ≡ key.now) }
        ensures refusal { IfErr result (λ refusal. (x : Texts) → encodes key.now inputs.now x → IsGroundRefusal (terrain x) refusal) }
        ensures no_read { told_by result ≢ Some Refusal.ReadFailed };

    /// What numbers of its heights stand for.
    fn height_kind(frame: &Self::Frame) -> HeightKind
        ensures { result ≡ kind frame.now };

    /// The rows and columns of the ground.
    fn shape(frame: &Self::Frame) -> Shape
        ensures { result ≡ extent frame.now };

    /// Whether the header's raster lies on the ground.
    fn is_placed(frame: &Self::Frame, header: &Header) -> bool
        ensures { IsTrue result ↔ holds frame.now header.now.place };

    /// The rows of the ground, each input from its first byte on.
    fn begin(alloc: Global, frame: &Self::Frame) -> Result<Self::Rows, OutOfMemory>
        ensures begun { IfOk result (begun frame.now) };

    /// Reads the next row: none after the last.
    fn read_row(
        rows: &mut Self::Rows,
        inputs: &mut [Self],
        out: &mut GroundRow,
    ) -> Result<(), Refusal>
        requires counted { length inputs.old ≡ count rows.old }
        ensures rows { OnOk result ((t : GroundToGive) (n : ℕ) → after rows.old inputs.old t n → after rows.new inputs.new t (n + 1) × (out.new ≡ ground_row t n)) }
        ensures narrow { OnOk result (length out.new ≤ MAX_LENGTH) }
        ensures pixels { OnOk result (All (λ z. IfSome z IsPixel) out.new) }
        ensures read { has_read (rows.old, inputs.old) (rows.new, inputs.new) (gave_up None (told_by result)) }
        ensures of_reading { IsOfReading (told_by result) }
        ensures counted { count rows.new ≡ count rows.old }
        ensures as_many { length inputs.new ≡ length inputs.old };

    /// Why the ground is refused for the length of an input, once all rows are read.
    fn refusal_of_length(frame: &Self::Frame, rows: &Self::Rows) -> Option<Refusal>
        requires counted { count rows.now ≡ size frame.now }
        ensures told { (x : Texts) (inputs : List Self) → framed frame.now x → after rows.now inputs (rows_of x) ((extent frame.now).rows + 1) → IsToldOf (terrain x) 5 result }
        ensures of_bodies { IfSome result IsOfBodies }
        ensures no_read { result ≢ Some Refusal.ReadFailed };

    /// Why it is refused for its values, once all rows are read and no input has a wrong length.
    fn refusal_of_values(frame: &Self::Frame, rows: &Self::Rows) -> Option<Refusal>
        requires counted { count rows.now ≡ size frame.now }
        ensures told { (x : Texts) (inputs : List Self) → framed frame.now x → after rows.now inputs (rows_of x) ((extent frame.now).rows + 1) → IsToldOf (terrain x) 5 None → IsToldOf (terrain x) 7 result }
        ensures of_bodies { IfSome result IsOfBodies }
        ensures no_read { result ≢ Some Refusal.ReadFailed };

    /// The laws of what the inputs mean: the frame is theirs, and it is that of the ground; no refusal of a kind before
    /// headers applies; a new reader is to give their rows, and these are the ground's if no input has a wrong length; and
    /// what is said of the elevations, if no refusal of lengths and values applies.
    fn meaning_laws()
        ensures framed { (f : Self.Frame) (xs : List Self) (x : Texts) → fit f xs → encodes (key_of f) xs x → framed f x }
        ensures laid { (f : Self.Frame) (x : Texts) → framed f x → IsLaidOn (kind f) (extent f) (holds f) (terrain x) }
        ensures none_early { (f : Self.Frame) (xs : List Self) (x : Texts) → fit f xs → encodes (key_of f) xs x → NoneRefusesBefore (terrain x) 4 }
        ensures start { (f : Self.Frame) (xs : List Self) (x : Texts) (rows : Self.Rows) → encodes (key_of f) xs x → framed f x → begun f rows → after rows xs (rows_of x) 0 }
        ensures rows { (f : Self.Frame) (x : Texts) → framed f x → IsToldOf (terrain x) 5 None → AreGroundRows (terrain x) (rows_of x) }
        ensures told { (f : Self.Frame) (x : Texts) → framed f x → IsToldOf (terrain x) 5 None → IsToldOf (terrain x) 7 None → is_told x };

    /// The laws of reading: how many inputs there are; readings one after the other are one; and what is read, from a new
    /// reader on, is within what is needed, fails exactly if a source fails for good, and keeps what stays.
    fn reading_laws()
        ensures counted { (f : Self.Frame) (rows : Self.Rows) → begun f rows → count rows ≡ size f }
        ensures sized { (f : Self.Frame) (xs : List Self) → fit f xs → length xs ≡ size f }
        ensures recounted { (a b : Self.Rows × List Self) (failed : Bool) → has_read a b failed → count b.0 ≡ count a.0 }
        ensures nothing { (s : Self.Rows × List Self) → has_read s s false }
        ensures joined { (a b c : Self.Rows × List Self) (failed : Bool) → has_read a b false → has_read b c failed → has_read a c failed }
        ensures none_within { (key : Self.Key) (xs : List Self) → within key xs xs }
        ensures within { (f : Self.Frame) (a b : Self.Rows × List Self) (failed : Bool) → begun f a.0 → fit f a.1 → has_read a b failed → within (key_of f) a.1 b.1 }
        ensures faults { (f : Self.Frame) (a b : Self.Rows × List Self) (failed : Bool) → begun f a.0 → fit f a.1 → has_read a b failed
            → SomeReadFails (map R.counts (devices a.1)) (map R.counts (devices b.1)) (IsTrue failed) }
        ensures none_kept { (xs : List Self) → kept xs xs }
        ensures kept { (a b : Self.Rows × List Self) (failed : Bool) → has_read a b failed → kept a.1 b.1 };
}
