//! What decides beside the rules of the patches: directions followed to their ends, ranks, or the filled surface.

ghost use Rattle.std.specs.Prelude.{◌≡◌};
ghost use Rattle.drain_verdict.specs.Names.{List, IfOk, MatchOption, IfErr, Grid, Products, Extent};
ghost use Rattle.drain_grid.specs.declared.judged.Judged as declared;
ghost use Rattle.drain_verdict.specs.Names.{Flow, IsFirstUnfilled, RulesHold, surface_rules, IsLeastSurface};
ghost use Rattle.drain_filled.specs.ConRows.{AreFirstCon, HasSinks};
ghost use Rattle.drain_grid.specs.declared.judged.Judged.TheVariants.{Con};
ghost use Rattle.drain_grid.specs.Rule.{IsFillRule};
ghost use Rattle.drain_paths.specs.Ways.{ground_of, directions_of, AreRanks, IsRankRefusal};

use drain_filled::ConRows;
use drain_grid::{Cell, Elevation, Judged, OutOfMemory, Raster, Rules, Shape, Sinks, Verdict};
use drain_paths::{CellFlows, CertifyRefusal, UNKNOWN, count_steps, flows_of_rasters};
use drain_rows::{RowBuffer, RowVisitor, first_endless};
use drain_rules::ThreeRows;
use std::alloc::Global;

/// The cell that decides against the rasters, whatever the rules say, or none; and the flow of each cell if directions
/// decide.
#[derive(Drop)]
pub struct Decided {
    pub cell: Option<Cell>,
    pub flows: CellFlows,
}

/// What is kept of all rows and, with the verdict of the rules, decides.
pub trait Decider: RowVisitor {
    ghost use Rattle.std.specs.Prelude.{◌≡◌};
    ghost use Rattle.drain_verdict.specs.Names.{IfOk, Rules, IsVerdictBy};
    ghost use Rattle.drain_filled.specs.ConRows.{HasSinks};
    ghost use Rattle.drain_verdict.specs.Deciding.{IsDecided};

    /// It decides of these rasters.
    ghost decides: { declared.Judged → Type 0 };

    /// These are the flows that it leaves of a grid of this size.
    ghost leave: { Grid → Products → Extent → List Flow → Type 0 };

    /// No row was noted. This takes no memory.
    fn begin(alloc: Global) -> Self
        ensures uncounted { Self.counts 0 result }
        ensures unnoted { (rules : Rules) (g : Grid) (ps : Products) → Self.are_of rules g ps 0 result };

    /// The cell that decides on the grid of this shape, all of whose rows are noted. `sinks` are its sinks, and `verdict`
    /// is that of the rules about the judged rasters.
    fn decide(
        self,
        alloc: Global,
        shape: Shape,
        sinks: &Sinks,
        judged: Judged,
        verdict: &Verdict,
    ) -> Result<Decided, OutOfMemory>
        ensures cell { IfOk result (λ decided. (rules : Rules) (g : Grid) (ps : Products)
            → decides judged → rules.judged ≡ judged → g.extent ≡ shape → HasSinks g sinks.now
            → Self.are_of rules g ps shape.rows self → IsVerdictBy rules g ps verdict.now → IsDecided judged g ps verdict.now decided.cell) }
        ensures flows { IfOk result (λ decided. (rules : Rules) (g : Grid) (ps : Products)
            → g.extent ≡ shape → Self.are_of rules g ps shape.rows self → leave g ps shape decided.flows) };
}

/// The flows are then known to be those of the grid, except for cells whose paths were found to end.
impl Decider for CellFlows {
    ghost use Rattle.std.specs.Prelude.{◌≡◌};
    ghost use Rattle.drain_verdict.specs.Names.{false, IsTrue, has_dir, has_rnk};
    ghost use Rattle.drain_verdict.specs.Deciding.{AreFlowsLeft};

    ghost decides = { λ judged. IsTrue (has_dir judged) × has_rnk judged ≡ false };

    ghost leave = { λ g ps extent flows. AreFlowsLeft g ps extent flows };

    fn begin(alloc: Global) -> CellFlows {
        CellFlows::new(alloc)
    }

    fn decide(
        self,
        _alloc: Global,
        shape: Shape,
        _sinks: &Sinks,
        judged: Judged,
        verdict: &Verdict,
    ) -> Result<Decided, OutOfMemory> {
        let mut flows = self;
        let cell = first_endless(&mut flows, shape, judged, verdict);
        Ok(Decided { cell, flows })
    }
}

/// Nothing is kept of any row.
#[derive(Drop)]
pub struct RanksDecide;

impl RowVisitor for RanksDecide {
    ghost use Rattle.std.specs.Prelude.{true};

    ghost counts = { λ n notes. Unit {0} };

    ghost are_of = { λ rules g ps rows notes. Unit {0} };

    ghost wants = { λ rules g ps. Unit {0} };

    ghost lasting = { λ notes. true };

    fn note(
        &mut self,
        _row: &RowBuffer,
        _rows: &ThreeRows<'_>,
        _rules: &Rules,
    ) -> Result<(), OutOfMemory> {
        Ok(())
    }
}

impl Decider for RanksDecide {
    ghost use Rattle.std.specs.Prelude.{◌≡◌};
    ghost use Rattle.drain_verdict.specs.Names.{AllWithRanks};

    ghost decides = { λ judged. judged ≡ AllWithRanks };

    ghost leave = { λ g ps extent flows. Unit {0} };

    fn begin(_alloc: Global) -> RanksDecide {
        RanksDecide
    }

    fn decide(
        self,
        alloc: Global,
        _shape: Shape,
        _sinks: &Sinks,
        _judged: Judged,
        _verdict: &Verdict,
    ) -> Result<Decided, OutOfMemory> {
        Ok(Decided {
            cell: None,
            flows: CellFlows::new(alloc),
        })
    }
}

/// If every rule about con holds, the elevations are flooded, and con is compared with the filled surface.
impl Decider for ConRows {
    ghost use Rattle.std.specs.Prelude.{[]};

    ghost decides = { λ judged. judged ≡ Con };

    ghost leave = { λ g ps extent flows. flows ≡ [] };

    fn begin(alloc: Global) -> ConRows {
        ConRows::new(alloc)
    }

    fn decide(
        self,
        alloc: Global,
        shape: Shape,
        sinks: &Sinks,
        _judged: Judged,
        verdict: &Verdict,
    ) -> Result<Decided, OutOfMemory> {
        let cell = match verdict {
            Verdict::Rejected { .. } => None,
            Verdict::Accepted(_) => first_unfilled(alloc, self, shape, sinks)?,
        };
        Ok(Decided {
            cell,
            flows: CellFlows::new(alloc),
        })
    }
}

/// The first cell where con is below the filled surface, where every rule about con holds.
fn first_unfilled(
    alloc: Global,
    rows: ConRows,
    shape: Shape,
    sinks: &Sinks,
) -> Result<Option<Cell>, OutOfMemory>
    ensures first { IfOk result (λ cell. (g : Grid) (ps : Products) → g.extent ≡ shape → HasSinks g sinks.now → AreFirstCon g ps shape.rows rows → RulesHold surface_rules IsFillRule g ps → MatchOption cell (IsLeastSurface g ps.con) (IsFirstUnfilled g ps.con)) }
{
    // Of each cell there is a number.
    let Some(both) = rows.into_parts(shape) else {
        return Err(OutOfMemory);
    };
    both.first_unfilled(alloc, sinks)
}

/// Ranks that fall at each step along the codes: for each data cell the number of steps to its path's end, for voids
/// 4294967295, the no-data number.
///
/// `NoEnd` names the first data cell in row order whose path reaches no code 0, exactly if there is one; `OutOfMemory`
/// if memory was refused.
pub fn certify(alloc: Global, elevation: &Elevation, dir: &Raster) -> Result<Raster, CertifyRefusal>
    requires same_shape { elevation.now.extent ≡ dir.now.extent }
    ensures ranks { IfOk result (AreRanks (ground_of elevation.now) (directions_of dir.now)) }
    ensures err { IfErr result (IsRankRefusal (ground_of elevation.now) (directions_of dir.now)) }
{
    let shape = elevation.shape();
    let Ok(flows) = flows_of_rasters(alloc, elevation, dir) else {
        return Err(CertifyRefusal::OutOfMemory);
    };
    let steps = count_steps(alloc, &flows, shape)?;
    Ok(Raster::of_counts(shape, i64::from(UNKNOWN), steps))
}
