//! A grid padded with voids: its rules, runs, counts and verdict, and what correct products mean. Also parts of a
//! correct set, and heights of floats.
//!
//! By padding, a raster of any shape can be laid into a larger grid, such as one of whole tiles, and be checked there.
//! A law is a function with an empty body: its contract is the law, and code that calls it can use the law.
#![tactic(auto)]

pub mod floats;
pub mod parts;

ghost use Rattle.drain_laws.specs.Laws.{EveryGridCanBePadded, PaddingBreaksNoRule, PaddingKeepsAccumulation, PaddingKeepsBasins, PaddingKeepsChecks, PaddingKeepsCorrect, PaddingKeepsCounts, PaddingKeepsData, PaddingKeepsFirstEndless, PaddingKeepsFirstFault, PaddingKeepsOpen, PaddingKeepsRules, PaddingKeepsRuns, PaddingKeepsSteps, PaddingKeepsTallies, PaddingKeepsVerdict};

/// Each grid, its products and its ranks can be padded to each size that has at least as many rows and columns.
pub fn every_grid_can_be_padded()
    ensures { EveryGridCanBePadded }
{}

/// The data cells of a padded grid are those of the grid.
pub fn padding_keeps_data()
    ensures { PaddingKeepsData }
{}

/// The open cells of a padded grid are those of the grid: where its edge was, voids are next to it.
pub fn padding_keeps_open()
    ensures { PaddingKeepsOpen }
{}

/// As many data cells of a padded grid pass a test as of the grid, if the test has one answer at each data cell.
pub fn padding_keeps_tallies()
    ensures { PaddingKeepsTallies }
{}

/// A padded grid has as many data cells as the grid; as many of them are raised, and as many are outlets by their code.
pub fn padding_keeps_counts()
    ensures { PaddingKeepsCounts }
{}

/// At each cell of the grid, each rule of an audit holds on the padded grid exactly if it holds on the grid.
pub fn padding_keeps_rules()
    ensures { PaddingKeepsRules }
{}

/// At each other cell of the padded grid every rule of an audit holds.
pub fn padding_breaks_no_rule()
    ensures { PaddingBreaksNoRule }
{}

/// The first fault of an audit's rules, in row order, is the same rule at the same cell on both.
pub fn padding_keeps_first_fault()
    ensures { PaddingKeepsFirstFault }
{}

/// The verdict by an audit's rules is the same on both, but for the number of rows and columns in an acceptance.
pub fn padding_keeps_verdict()
    ensures { PaddingKeepsVerdict }
{}

/// If ranks are padded too, the last four laws are true of the rules of a check.
pub fn padding_keeps_checks()
    ensures { PaddingKeepsChecks }
{}

/// The run from a data cell ends on the padded grid exactly if it ends on the grid, and then visits the same cells.
pub fn padding_keeps_runs()
    ensures { PaddingKeepsRuns }
{}

/// The first data cell whose run doesn't end is the same on both.
pub fn padding_keeps_first_endless()
    ensures { PaddingKeepsFirstEndless }
{}

/// If all runs end, ranks that are the numbers of steps on both are padded ranks: so a check with them has one verdict.
pub fn padding_keeps_steps()
    ensures { PaddingKeepsSteps }
{}

/// If all runs end, as many cells drain through a data cell on the padded grid as on the grid.
pub fn padding_keeps_accumulation()
    ensures { PaddingKeepsAccumulation }
{}

/// Two data cells whose runs end share a basin of the padded grid exactly if they share one of the grid.
pub fn padding_keeps_basins()
    ensures { PaddingKeepsBasins }
{}

/// Padded products are correct on the padded grid exactly if the products are correct on the grid.
pub fn padding_keeps_correct()
    ensures { PaddingKeepsCorrect }
{}
