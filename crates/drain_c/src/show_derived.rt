//! Writing what follows from directions, or why nothing does.

ghost use Rattle.std.specs.Prelude.{◌≡◌, ◌*◌, ◌==◌, ◌&&◌};
ghost use Rattle.drain_c.specs.Names.{IfOk, IsFalse, IsTrue, AreCounts};
ghost use Rattle.drain_c.specs.Derived.{AreNumbersOf, ShowsDerivation, have_cells, shape_line};
ghost use Rattle.drain_c.specs.Found.{status_only};
ghost use Rattle.drain_c.specs.Shown.{ShowsAnswer, ShowsBadRaster};

use crate::answer::{Answer, show, show_bad_raster, show_outcome};
use crate::derived::write_numbers;
use crate::found::status_only;
use drain_answer::lines::{Line, push_number, words};
use drain_grid::Shape;
use drain_maker::{DeriveRefusal, Derived};

/// Writes what follows, or why nothing does.
pub fn show_derivation(
    derivation: &Result<(Shape, Derived), DeriveRefusal>,
    acc: &mut [u32],
    bas: &mut [u32],
    rnk: &mut [u32],
    answer: &mut Answer,
)
    requires { IfOk derivation.now (λ made. AreCounts made.0 made.1) }
    ensures { ShowsDerivation derivation.now (acc.old, bas.old, rnk.old) (acc.new, bas.new, rnk.new) answer.new }
{
    match derivation {
        Ok((shape, derived)) => show_derived(*shape, derived, acc, bas, rnk, answer),
        Err(why) => show_outcome(&why.outcome(), answer),
    }
}

/// Writes the rasters, if each has the length of its memory; else that one has another.
fn show_derived(
    shape: Shape,
    derived: &Derived,
    acc: &mut [u32],
    bas: &mut [u32],
    rnk: &mut [u32],
    answer: &mut Answer,
)
    requires { AreCounts shape derived.now }
    ensures fits { IsTrue (have_cells shape acc.old bas.old rnk.old) → ShowsAnswer (status_only 0) (shape_line shape) answer.new × AreNumbersOf derived.now acc.new bas.new rnk.new }
    ensures misfits { IsFalse (have_cells shape acc.old bas.old rnk.old) → ShowsBadRaster answer.new × (acc.new ≡ acc.old) × (bas.new ≡ bas.old) × (rnk.new ≡ rnk.old) }
{
    let cells = shape.cells();
    if acc.len() != cells || bas.len() != cells || rnk.len() != cells {
        show_bad_raster(answer);
        return;
    }
    write_numbers(&derived.acc, acc);
    write_numbers(&derived.bas, bas);
    write_numbers(&derived.rnk, rnk);
    show(answer, status_only(0), shape_line(shape).as_str());
}

/// The line of rasters of this shape.
fn shape_line(shape: Shape) -> Line
    ensures { result.bytes ≡ shape_line shape }
{
    let mut line = words("derived rows=");
    push_number(&mut line, shape.rows());
    line.push_str(" cols=");
    push_number(&mut line, shape.cols());
    line
}
