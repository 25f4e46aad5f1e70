//! Which tiles a mosaic has, and where they lie in it.
//!
//! A mosaic is the bounding box of its tiles. Adjacent tiles share their edge rows and columns, so a box of `a` tiles
//! from north to south has `a * (side - 1) + 1` rows. Source: the SRTM HGT documentation; that a box is at most 8 by 8
//! tiles is this project's choice.

ghost use Rattle.std.specs.Prelude.{◌≡◌, ◌≢◌, ◌+◌, ◌-◌, ◌*◌, ◌≤◌, ◌<◌, ◌-ℤ◌};
ghost use Rattle.drain_mosaic.specs.Names.{ℕ, map, MatchOption, IfOk, IfErr, IsOk, Some, slice_get, length, option_map, nat_abs, IsSide, Corner, IsWithin};
ghost use Rattle.drain_text.specs.First.{IsFirst};
ghost use Rattle.drain_mosaic.specs.GivenTiles.{HasLayoutFault, IsFirstRepeated, IsLayout, IsRepeatedAt, AreBoundsOf, layout_fault_order};
ghost use Rattle.drain_mosaic.specs.Tiling.{Tiling, least, greatest, west_of, north_of, extent_of, top_left_of};

use drain_grid::{Cell, Shape};
use drain_hgt::TileName;
use drain_hgt::name::{HALF_TURN, POLE};
use std::alloc::Global;
use std::marker::Model;
use thiserror::Error;

/// The greatest number of tiles from north to south, and from west to east.
pub const MAX_BOX: u32 = 8;

/// Why tiles make no mosaic, in the order in which the errors are returned.
#[derive(Clone, Copy, PartialEq, Eq, Debug, Error)]
pub enum LayoutFault {
    /// The list is empty.
    #[error("no tile is named")]
    NoTiles,
    /// The tile is in the list already.
    #[error("a tile is named twice")]
    RepeatedTile(TileName),
    /// The tiles lie further apart than 8 by 8.
    #[error("the tiles lie too far apart")]
    BoxTooLarge,
    /// The list has no fault, and memory for the names runs out.
    #[error("out of memory")]
    OutOfMemory,
}

/// The tiles of a mosaic, in the order of the list. Contracts see their side and their corners.
#[derive(Drop)]
pub struct Layout {
    side: u32,
    west: i16,
    north: i16,
    shape: Shape,
    names: Vec<TileName>,
}

impl Model for Layout {
    ghost use Rattle.drain_mosaic.specs.GivenTiles.{IsLayout, AreTilingNumbers};
    ghost use Rattle.drain_mosaic.specs.Tiling.{Tiling};

    ghost Value = { Tiling };

    ghost view = { λ l. record { side = l.side; corners = l.names.items } };

    ghost invariant = { λ l. IsLayout (record { side = l.side; corners = l.names.items }) × AreTilingNumbers (record { side = l.side; corners = l.names.items }) l.west l.north l.shape };
}

impl Layout {
    /// The layout of the tiles, or the first fault of their list: `NoTiles` if it is empty, `RepeatedTile` with the
    /// first tile that equals an earlier one, `BoxTooLarge` if no box of 8 by 8 holds them. `OutOfMemory` only without
    /// such a fault.
    pub fn new(alloc: Global, side: u32, names: &[TileName]) -> Result<Layout, LayoutFault>
        requires { IsSide side }
        ensures layout { IfOk result (λ layout. layout ≡ record { side = side; corners = names.now }) }
        ensures sound { IfOk result (λ layout. (fault : LayoutFault) → ¬ HasLayoutFault layout fault) }
        ensures first_fault { IfErr result (λ fault. fault ≢ LayoutFault.OutOfMemory → IsFirst layout_fault_order (HasLayoutFault (record { side = side; corners = names.now })) fault) }

        // Running out of memory never hides a fault.
        ensures wants_memory { result ≡ Err LayoutFault.OutOfMemory → (fault : LayoutFault) → ¬ HasLayoutFault (record { side = side; corners = names.now }) fault }
    {
        let Bounds {
            west,
            north,
            down,
            across,
        } = match box_of(names) {
            Ok(bounds) => bounds,
            Err(fault) => return Err(fault),
        };
        let shape = shape_of(side, down, across);
        match Vec::from_slice(alloc, names) {
            Ok(names) => Ok(Layout {
                side,
                west,
                north,
                shape,
                names,
            }),
            Err(_) => Err(LayoutFault::OutOfMemory),
        }
    }

    /// The law that the tiles make a mosaic: their side is in range, and their list has no fault.
    pub fn makes_a_mosaic(&self)
        ensures { IsLayout self.now }
    {
        // The proof knows the layout's invariant once a field of it was read.
        let _side = self.side;
    }

    /// The rows and columns of the mosaic.
    pub fn shape(&self) -> Shape
        ensures { result ≡ extent_of self.now }
    {
        self.shape
    }

    /// How many samples each tile has along an edge.
    pub fn side(&self) -> u32
        ensures side { result ≡ self.now.side }
        ensures in_range { IsSide result }
    {
        self.side
    }

    /// The least longitude of the box, in degrees to the east.
    pub fn west(&self) -> i16
        ensures degrees { result ≡ west_of self.now }
        ensures in_range { nat_abs result ≤ HALF_TURN }
    {
        self.west
    }

    /// The greatest latitude of the box, in degrees to the north: one more than that of its northernmost tile.
    pub fn north(&self) -> i16
        ensures degrees { result ≡ north_of self.now }
        ensures in_range { nat_abs result ≤ POLE }
    {
        self.north
    }

    /// The number of tiles.
    pub fn len(&self) -> usize
        ensures { result ≡ length self.now.corners }
    {
        self.names.len()
    }

    /// The name of a tile, counted from 0 in the order of the list.
    pub fn name(&self, i: usize) -> TileName
        requires { i < length self.now.corners }
        ensures { Some result ≡ slice_get self.now.corners i }
    {
        self.names[i]
    }

    /// The north-west cell of a tile, counted as by `name`. The tile lies within the mosaic.
    pub fn place(&self, i: usize) -> Cell
        requires { i < length self.now.corners }
        ensures place { Some result ≡ option_map (top_left_of self.now) (slice_get self.now.corners i) }
        ensures rows_inside { result.row + self.now.side ≤ (extent_of self.now).rows }
        ensures cols_inside { result.col + self.now.side ≤ (extent_of self.now).cols }
    {
        let name = self.names[i];
        Cell {
            row: samples_between(self.side, i16::from(name.lat()), self.north - 1),
            col: samples_between(self.side, self.west, name.lon()),
        }
    }
}

/// The bounding box of tiles whose list has no fault, else the first fault of the list. This takes no memory.
fn box_of(names: &[TileName]) -> Result<Bounds, LayoutFault>
    ensures bounds { IfOk result (λ b. (side : ℕ) → AreBoundsOf (record { side = side; corners = names.now }) b.west b.north b.down b.across) }
    ensures down { IfOk result (λ b. b.down ≤ MAX_BOX) }
    ensures across { IfOk result (λ b. b.across ≤ MAX_BOX) }
    ensures sound { IsOk result → (side : ℕ) (fault : LayoutFault) → ¬ HasLayoutFault (record { side = side; corners = names.now }) fault }
    ensures first_fault { IfErr result (λ fault. (side : ℕ) → IsFirst layout_fault_order (HasLayoutFault (record { side = side; corners = names.now })) fault) }
{
    if names.is_empty() {
        return Err(LayoutFault::NoTiles);
    }
    if let Some(name) = first_repeated(names) {
        return Err(LayoutFault::RepeatedTile(name));
    }
    let bounds = bounds_of(names);
    if bounds.down > MAX_BOX || bounds.across > MAX_BOX {
        return Err(LayoutFault::BoxTooLarge);
    }
    Ok(bounds)
}

/// The first tile that equals an earlier one.
fn first_repeated(names: &[TileName]) -> Option<TileName>
    ensures { MatchOption result ((i : ℕ) (c : Corner) → ¬ IsRepeatedAt names.now i c) (IsFirstRepeated names.now) }
{
    for (i, name) in names.iter().enumerate() {
        if names[..i].contains(name) {
            return Some(*name);
        }
    }
    None
}

/// A bounding box: its west and north edges in degrees, and how many tiles it has each way.
#[derive(Clone, Copy)]
struct Bounds {
    west: i16,
    north: i16,
    down: u32,
    across: u32,
}

/// The bounding box of the tiles.
fn bounds_of(names: &[TileName]) -> Bounds
    requires { 0 < length names.now }
    ensures { (side : ℕ) → AreBoundsOf (record { side = side; corners = names.now }) result.west result.north result.down result.across }
{
    let (south, last) = lats(names);
    let (west, east) = lons(names);
    Bounds {
        west,
        north: last + 1,
        down: u32::from((last + 1 - south).unsigned_abs()),
        across: u32::from((east + 1 - west).unsigned_abs()),
    }
}

/// The rows and columns of a box of tiles that share their edges.
fn shape_of(side: u32, down: u32, across: u32) -> Shape
    requires side { IsSide side }
    requires down { down ≤ MAX_BOX }
    requires across { across ≤ MAX_BOX }
    ensures { result ≡ record { rows = down * (side - 1) + 1; cols = across * (side - 1) + 1 } }
{
    Shape::new(down * (side - 1) + 1, across * (side - 1) + 1).unwrap()
}

/// How many rows or columns lie between two tiles' edges: those of each degree but one, which the next degree shares.
fn samples_between(side: u32, from: i16, to: i16) -> u32
    requires side { IsSide side }
    requires from { nat_abs from ≤ HALF_TURN }
    requires to { nat_abs to ≤ HALF_TURN }
    ensures { result ≡ nat_abs (to -ℤ from) * (side - 1) }
{
    u32::from((to - from).unsigned_abs()) * (side - 1)
}

/// The least and the greatest latitude of the tiles.
fn lats(names: &[TileName]) -> (i16, i16)
    requires { 0 < length names.now }
    ensures least { result.0 ≡ least (map (λ c. c.lat) names.now) }
    ensures greatest { result.1 ≡ greatest (map (λ c. c.lat) names.now) }
    ensures low { IsWithin POLE result.0 }
    ensures high { IsWithin POLE result.1 }
{
    let mut least = i16::from(names[0].lat());
    let mut greatest = least;
    for name in names {
        let lat = i16::from(name.lat());
        least = least.min(lat);
        greatest = greatest.max(lat);
    }
    (least, greatest)
}

/// The least and the greatest longitude of the tiles.
fn lons(names: &[TileName]) -> (i16, i16)
    requires { 0 < length names.now }
    ensures least { result.0 ≡ least (map (λ c. c.lon) names.now) }
    ensures greatest { result.1 ≡ greatest (map (λ c. c.lon) names.now) }
    ensures low { IsWithin HALF_TURN result.0 }
    ensures high { IsWithin HALF_TURN result.1 }
{
    let mut least = names[0].lon();
    let mut greatest = least;
    for name in names {
        let lon = name.lon();
        least = least.min(lon);
        greatest = greatest.max(lon);
    }
    (least, greatest)
}
