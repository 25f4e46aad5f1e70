//! How far apart neighbours are.
//!
//! It is apart from the patch because a whole row shares it. Only the ratio of the two numbers matters, so each row may
//! have a unit of its own.

ghost use Rattle.std.specs.Prelude.{◌≡◌, ◌↔◌, ◌<◌, ◌≤◌, ◌^◌, IfSome, IsSome, IsTrue};
ghost use Rattle.drain_grid.specs.declared.height_kind.HeightKind.{HeightKind};
ghost use Rattle.drain_grid.specs.declared.spacing.TheConstants.{GREATEST_SPACING};
ghost use Rattle.drain_grid.specs.Spacing.{IsDistance, IsSpacing, distance_square, of_kind, unit_spacing};

use crate::direction::Direction;
use crate::height_kind::HeightKind;
use std::marker::Model;

/// The greatest width and height: the square of a drop of pixels, times that of a distance, then has room in 127 bits.
pub const GREATEST_SPACING: u32 = 1073741824;

/// How far apart two cells of a row are, and two cells of a column: whole numbers in one unit; and what numbers of heights
/// stand for.
#[derive(Clone, Copy, PartialEq, Eq, Debug)]
pub struct Spacing {
    pub width: u32,
    pub height: u32,
    pub kind: HeightKind,
}

impl Model for Spacing {
    ghost use Rattle.drain_grid.specs.Spacing.{Distances, IsSpacing};

    ghost Value = { Distances };

    ghost view = { λ s. record { width = s.width; height = s.height; kind = s.kind } };

    ghost invariant = { λ s. IsSpacing (record { width = s.width; height = s.height; kind = s.kind }) };

    ghost inverse = { λ s. record { width = s.width; height = s.height; kind = s.kind } };
}

impl Spacing {
    /// The spacing, if each number is from 1 to 2^30, of whole heights.
    pub fn new(width: u32, height: u32) -> Option<Spacing>
        ensures valid { IsSome result ↔ IsSpacing (record { width = width; height = height; kind = HeightKind.Whole }) }
        ensures value { IfSome result (λ s. s ≡ record { width = width; height = height; kind = HeightKind.Whole }) }
    {
        if is_distance(width) && is_distance(height) {
            let kind = HeightKind::Whole;
            Some(Spacing {
                width,
                height,
                kind,
            })
        } else {
            None
        }
    }

    /// That of square cells.
    pub fn unit() -> Spacing
        ensures { result ≡ unit_spacing }
    {
        Spacing {
            width: 1,
            height: 1,
            kind: HeightKind::Whole,
        }
    }

    /// The same for heights of this kind.
    pub fn of_kind(self, kind: HeightKind) -> Spacing
        ensures { result ≡ of_kind kind self }
    {
        Spacing { kind, ..self }
    }

    /// The square of the distance in this direction.
    pub fn distance_square(&self, direction: Direction) -> u64
        ensures square { result ≡ distance_square self.now direction }
        ensures valid { IsSpacing self.now }
        ensures few { result ≤ 2 ^ 61 }
    {
        let width = self.width as u64;
        let height = self.height as u64;
        match direction {
            Direction::East | Direction::West => width * width,
            Direction::South | Direction::North => height * height,
            Direction::SouthEast
            | Direction::SouthWest
            | Direction::NorthWest
            | Direction::NorthEast => width * width + height * height,
        }
    }
}

/// Whether the number is from 1 to 2^30.
fn is_distance(number: u32) -> bool
    ensures { IsTrue result ↔ IsDistance number }
{
    (1..=GREATEST_SPACING).contains(&number)
}
