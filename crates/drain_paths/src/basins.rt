//! Which outlet or sink each cell drains to, where every run is known to end: a walk looks at no edge and at no void.

ghost use Rattle.std.specs.Prelude.{◌≡◌, ◌≢◌, ◌<◌, ◌≤◌, ◌+◌, ◌*◌};
ghost use Rattle.drain_paths.specs.Names.{ℕ, IfOk, length, slice_index_or, vec_len, IsCellOf, Cell};
ghost use Rattle.drain_grid.proofs.Runs.{cell_at};
ghost use Rattle.drain_paths.specs.declared.flow.Flow.TheVariants.{Void};
ghost use Rattle.drain_paths.specs.Basins.{AreBasinLabels, AreEndLabels, basin_label};
ghost use Rattle.drain_paths.specs.CellNumbers.{AreNumbers, AreNumbersSoFar, cell_number};
ghost use Rattle.drain_paths.specs.Flows.{AllFlowsEnd, OfFlows, bytes_flows};

use crate::flow::{CodedFlows, Flow};
use crate::places::{CodedOnward, ListedOnward, Onward, code_offsets, offsets, place_ahead};
use crate::ways::{ListedFlows, Ways};
use drain_grid::{OutOfMemory, Shape};
use std::alloc::Global;

/// The labels of basins, from the flows of all cells of a grid whose runs all end: outlets have 1, 2, 3 and so on in row
/// order, each data cell that of the outlet where its run ends, and voids 0.
///
/// Walks pass each cell at most twice. It takes four bytes per cell.
#[inline(never)]
pub fn label_ended(alloc: Global, flows: &[Flow], shape: Shape) -> Result<Vec<u32>, OutOfMemory>
    requires counted { length flows.now ≡ shape.rows * shape.cols }
    requires ends { OfFlows shape flows.now AllFlowsEnd }
    ensures counted { IfOk result (λ labels. vec_len labels ≡ shape.rows * shape.cols) }
    ensures labels { IfOk result (λ labels. OfFlows shape flows.now (λ g ps. AreBasinLabels g ps shape labels.items)) }
{
    let onward = ListedOnward {
        flows,
        shape,
        offsets: offsets(shape),
    };
    label_all(alloc, &ListedFlows { flows }, &onward, shape)
}

/// The same from the codes of all cells, a byte per cell: `NO_CODE` at voids.
#[inline(never)]
pub fn label_ended_codes(alloc: Global, codes: &[u8], shape: Shape) -> Result<Vec<u32>, OutOfMemory>
    requires counted { length codes.now ≡ shape.rows * shape.cols }
    requires ends { OfFlows shape (bytes_flows codes.now) AllFlowsEnd }
    ensures counted { IfOk result (λ labels. vec_len labels ≡ shape.rows * shape.cols) }
    ensures labels { IfOk result (λ labels. OfFlows shape (bytes_flows codes.now) (λ g ps. AreBasinLabels g ps shape labels.items)) }
{
    let onward = CodedOnward {
        codes,
        shape,
        offsets: code_offsets(shape),
    };
    label_all(alloc, &CodedFlows::new(codes), &onward, shape)
}

/// The labels, whatever keeps the flows.
#[inline(always)]
fn label_all<W: Ways, O: Onward>(
    alloc: Global,
    ways: &W,
    onward: &O,
    shape: Shape,
) -> Result<Vec<u32>, OutOfMemory>
    requires counted { length (W.flows ways.now) ≡ shape.rows * shape.cols }
    requires same { O.flows onward.now ≡ W.flows ways.now }
    requires extent { O.extent onward.now ≡ shape }
    requires ends { OfFlows shape (O.flows onward.now) AllFlowsEnd }
    ensures counted { IfOk result (λ labels. vec_len labels ≡ shape.rows * shape.cols) }
    ensures labels { IfOk result (λ labels. OfFlows shape (O.flows onward.now) (λ g ps. AreBasinLabels g ps shape labels.items)) }
{
    let mut labels = outlet_labels(alloc, ways, shape)?;
    label_runs(onward, shape, &mut labels);
    Ok(labels)
}

/// Labels all data cells, from the labels of the outlets.
fn label_runs<O: Onward>(onward: &O, shape: Shape, labels: &mut [u32])
    requires counted { length (O.flows onward.now) ≡ shape.rows * shape.cols }
    requires labels_counted { length labels.old ≡ shape.rows * shape.cols }
    requires extent { O.extent onward.now ≡ shape }
    requires ends { OfFlows shape (O.flows onward.now) AllFlowsEnd }
    requires so_far { OfFlows shape (O.flows onward.now) (λ g ps. AreNumbersSoFar g ps shape 0 basin_label labels.old) }
    ensures { OfFlows shape (O.flows onward.now) (λ g ps. AreNumbers g ps shape 0 basin_label labels.new) }
{
    for place in 0..shape.cells() {
        label_from(onward, shape, labels, place);
    }
}

/// Labels the cell with this many cells before it, and those on its way, if it has data and no label yet.
fn label_from<O: Onward>(onward: &O, shape: Shape, labels: &mut [u32], place: usize)
    requires counted { length (O.flows onward.now) ≡ shape.rows * shape.cols }
    requires labels_counted { length labels.old ≡ shape.rows * shape.cols }
    requires extent { O.extent onward.now ≡ shape }
    requires ends { OfFlows shape (O.flows onward.now) AllFlowsEnd }
    requires inside { place < shape.rows * shape.cols }
    requires so_far { OfFlows shape (O.flows onward.now) (λ g ps. AreNumbersSoFar g ps shape 0 basin_label labels.old) }
    ensures so_far { OfFlows shape (O.flows onward.now) (λ g ps. AreNumbersSoFar g ps shape 0 basin_label labels.new) }
    ensures others { (c : Cell) → IsCellOf shape c → cell_number shape labels.old c ≢ 0 → cell_number shape labels.new c ≢ 0 }
    ensures here { slice_index_or (O.flows onward.now) place Void ≢ Void → slice_index_or labels.new place 0 ≢ 0 }
{
    if labels[place] != 0 || !onward.has_data(place) {
        return;
    }
    let label = label_ahead(onward, shape, labels, place);
    put_label(onward, shape, labels, place, label);
}

/// The first label on the way from a data cell.
#[inline(always)]
fn label_ahead<O: Onward>(onward: &O, shape: Shape, labels: &[u32], start: usize) -> u32
    requires counted { length (O.flows onward.now) ≡ shape.rows * shape.cols }
    requires labels_counted { length labels.now ≡ shape.rows * shape.cols }
    requires extent { O.extent onward.now ≡ shape }
    requires ends { OfFlows shape (O.flows onward.now) AllFlowsEnd }
    requires inside { start < shape.rows * shape.cols }
    requires has_data { slice_index_or (O.flows onward.now) start Void ≢ Void }
    requires so_far { OfFlows shape (O.flows onward.now) (λ g ps. AreNumbersSoFar g ps shape 0 basin_label labels.now) }
    ensures known { result ≢ 0 }
    ensures label { OfFlows shape (O.flows onward.now) (λ g ps. result ≡ basin_label g ps (cell_at shape start)) }
{
    let mut here = start;
    'walk: while labels[here] == 0 {
        here = place_ahead(onward, shape, here);
    }
    labels[here]
}

/// Labels the cells on the way from a data cell, up to the first that has a label.
#[inline(always)]
fn put_label<O: Onward>(onward: &O, shape: Shape, labels: &mut [u32], start: usize, label: u32)
    requires counted { length (O.flows onward.now) ≡ shape.rows * shape.cols }
    requires labels_counted { length labels.old ≡ shape.rows * shape.cols }
    requires extent { O.extent onward.now ≡ shape }
    requires ends { OfFlows shape (O.flows onward.now) AllFlowsEnd }
    requires inside { start < shape.rows * shape.cols }
    requires has_data { slice_index_or (O.flows onward.now) start Void ≢ Void }
    requires known { label ≢ 0 }
    requires label { OfFlows shape (O.flows onward.now) (λ g ps. label ≡ basin_label g ps (cell_at shape start)) }
    requires so_far { OfFlows shape (O.flows onward.now) (λ g ps. AreNumbersSoFar g ps shape 0 basin_label labels.old) }
    ensures so_far { OfFlows shape (O.flows onward.now) (λ g ps. AreNumbersSoFar g ps shape 0 basin_label labels.new) }
    ensures others { (c : Cell) → IsCellOf shape c → cell_number shape labels.old c ≢ 0 → cell_number shape labels.new c ≢ 0 }
    ensures here { slice_index_or labels.new start 0 ≢ 0 }
{
    let mut here = start;
    'walk: while labels[here] == 0 {
        labels[here] = label;
        here = place_ahead(onward, shape, here);
    }
}

/// The labels of the cells with code 0: 1, 2, 3 and so on in row order; 0 elsewhere.
fn outlet_labels<W: Ways>(alloc: Global, ways: &W, shape: Shape) -> Result<Vec<u32>, OutOfMemory>
    requires counted { length (W.flows ways.now) ≡ shape.rows * shape.cols }
    ensures counted { IfOk result (λ labels. vec_len labels ≡ shape.rows * shape.cols) }
    ensures labels { IfOk result (λ labels. OfFlows shape (W.flows ways.now) (λ g ps. (ends : ℕ) × AreEndLabels g ps shape (shape.rows * shape.cols) ends labels.items)) }
{
    let cells = shape.cells();
    let mut labels = vec![in alloc; 0u32; cells]?;
    let mut ends = 0;
    for place in 0..cells {
        ends = number_end(ways, shape, &mut labels, ends, place);
    }
    Ok(labels)
}

/// Numbers the cell with this many cells before it, if its code is 0; returns how many are numbered.
fn number_end<W: Ways>(ways: &W, shape: Shape, labels: &mut [u32], ends: u32, place: usize) -> u32
    requires counted { length (W.flows ways.now) ≡ shape.rows * shape.cols }
    requires labels_counted { length labels.old ≡ shape.rows * shape.cols }
    requires inside { place < shape.rows * shape.cols }
    requires few { ends ≤ place }
    requires so_far { OfFlows shape (W.flows ways.now) (λ g ps. AreEndLabels g ps shape place ends labels.old) }
    ensures few { result ≤ place + 1 }
    ensures labels { OfFlows shape (W.flows ways.now) (λ g ps. AreEndLabels g ps shape (place + 1) result labels.new) }
{
    let _cells = shape.cells();
    if ways.flow(place) != Flow::Ends {
        return ends;
    }
    let number = ends + 1;
    labels[place] = number;
    number
}
