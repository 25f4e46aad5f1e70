//! Where a window lies, from the texts of `--box`, `--inner` and `--at`.

ghost use Rattle.std.specs.Prelude.{◌≡◌, ◌≢◌, ◌∷◌};
ghost use Rattle.drain_args.specs.Names.{[], ℕ, MatchOption, Option, Some, List, false, list_all, IsOrigin, Place};
ghost use Rattle.drain_grid.specs.Extent.{IsExtent};
ghost use Rattle.drain_grid.specs.declared.cell.Cell.{Cell as CellOf};
ghost use Rattle.drain_args.specs.PlaceTexts.{IsBox, IsCellText, IsInner, has, is_side_letter, numbers_of};

use drain_grid::{Cell, Shape};
use drain_text::numbers::whole_number;
use drain_union::place::is_origin;
use drain_union::{InnerSides, Place, UnionSize};

/// The place of the box that the text names, with these inner sides.
///
/// The text is four whole numbers with commas between: the row and column of the first cell, counted from 0, and how
/// many rows and columns there are, 1 to 28,801 of each. None for any other text.
pub fn window_place(text: &str, inner: InnerSides) -> Option<Place>
    ensures place { MatchOption result ((p : Place) → IsExtent p.extent → IsBox text.now p → ⊥) (IsBox text.now) }
    ensures inner { MatchOption result (Unit {0}) (λ p. p.inner ≡ inner) }
{
    let (top, rest) = first_number(text)?;
    let (left, rest) = first_number(rest)?;
    let (rows, rest) = first_number(rest)?;
    let cols = last_number(rest)?;
    let extent = Shape::new(rows, cols)?;
    Some(Place {
        top,
        left,
        extent: UnionSize::of(extent),
        inner,
    })
}

/// The cell that the text names.
///
/// The text is two whole numbers with a comma between, the row and the column, counted from 0. None for any other text, and
/// if rows or columns of a raster that begins there might not be numbers of 32 bits.
pub fn first_cell(text: &str) -> Option<Cell>
    ensures { MatchOption result ((c : CellOf) → IsOrigin c → IsCellText text.now c → ⊥) (λ c. IsCellText text.now c × IsOrigin c) }
{
    let (row, rest) = first_number(text)?;
    let col = last_number(rest)?;
    let cell = Cell { row, col };
    if is_origin(cell) { Some(cell) } else { None }
}

/// The number before the first comma and the text behind it, none if there is no comma or no number before it.
fn first_number(text: &str) -> Option<(u32, &str)>
    ensures { MatchOption result ((n : ℕ) (m : Option ℕ) (more : List (Option ℕ)) → numbers_of text.now ≢ Some n ∷ (m ∷ more))
        (λ found. numbers_of text.now ≡ Some found.0 ∷ numbers_of found.1.now) }
{
    let (number, rest) = text.split_once(',')?;
    Some((whole_number(number.as_bytes())?, rest))
}

/// The number of the whole text, none if it is no number.
fn last_number(text: &str) -> Option<u32>
    ensures { MatchOption result ((n : ℕ) → numbers_of text.now ≢ Some n ∷ []) (λ n. numbers_of text.now ≡ Some n ∷ []) }
{
    whole_number(text.as_bytes())
}

/// The sides whose letters are in the text: n, e, s, w, in any order. None if it has another letter.
pub fn inner_sides(text: &str) -> Option<InnerSides>
    ensures { MatchOption result (list_all is_side_letter text.now ≡ false) (IsInner text.now) }
{
    let letters = text.as_bytes();
    if !are_side_letters(letters) {
        return None;
    }
    Some(InnerSides {
        north: has(letters, b'n'),
        south: has(letters, b's'),
        west: has(letters, b'w'),
        east: has(letters, b'e'),
    })
}

fn are_side_letters(letters: &[u8]) -> bool
    ensures { result ≡ list_all is_side_letter letters.now }
{
    letters.iter().all(|letter| is_side_letter(*letter))
}

fn is_side_letter(letter: u8) -> bool
    ensures { result ≡ is_side_letter letter }
{
    letter == b'n' || letter == b'e' || letter == b's' || letter == b'w'
}

fn has(letters: &[u8], letter: u8) -> bool
    ensures { result ≡ has letter letters.now }
{
    letters.contains(&letter)
}
