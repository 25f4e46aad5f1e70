//! What the local rules say of the whole grid.
//!
//! A law is a function with an empty body: its contract is the law, and code that calls it can use the law.

ghost use Rattle.std.specs.Prelude.{◌≡◌, pos, neg_ℤ};
ghost use Rattle.drain_grid.specs.OffData.{FoundOffDataIsRight};
ghost use Rattle.drain_grid.specs.Laws.{CorrectByRulesAlone, CorrectFromRules, CorrectIsLocal, CountsUpstream, KeysCompareSlopes, KeysOnUnitSpacing, NumbersOrderHeights, LabelsAreBasins, LeastAmongHeights, LeastFromRules, LeastFromRulesProfile2, OpenWithoutSinks, Profile2FromProfile1, RanksPlayNoPart, RulesAreCorrect, RulesFromCorrect, RunsEnd, RunsEndByCounts, SoundFromCorrect};

use crate::cell::MAX_LENGTH;
use crate::degree::UNITS_PER_DEGREE;
use crate::nodata::{GREATEST_NODATA, LEAST_NODATA};
use crate::spacing::GREATEST_SPACING;
use crate::tile::{GREATEST_SAMPLE, LEAST_SAMPLE, MAX_SIDE, MIN_SIDE, VOID};
use crate::values::{GREATEST_PIXEL, LEAST_PIXEL};

/// The numerals of the constants that definitions name.
///
/// Sources: the SRTM HGT documentation for the void, for the range of samples (16 signed bits), and for the greatest
/// side (a 1 arc-second tile); the range of 32 bits, signed and unsigned, for pixels; eight such tiles side by side,
/// with shared edges, for the greatest length. The least side, the bounds of a no-data number and the units of a degree
/// are this project's own.
pub fn constants()
    ensures void { VOID ≡ neg_ℤ (pos 32768) }
    ensures least_sample { LEAST_SAMPLE ≡ neg_ℤ (pos 32768) }
    ensures greatest_sample { GREATEST_SAMPLE ≡ pos 32767 }
    ensures min_side { MIN_SIDE ≡ 2 }
    ensures max_side { MAX_SIDE ≡ 3601 }
    ensures max_length { MAX_LENGTH ≡ 28801 }
    ensures least_pixel { LEAST_PIXEL ≡ neg_ℤ (pos 2147483648) }
    ensures greatest_pixel { GREATEST_PIXEL ≡ pos 4294967295 }
    ensures units_per_degree { UNITS_PER_DEGREE ≡ 1000000000000000 }
    ensures least_nodata { LEAST_NODATA ≡ neg_ℤ (pos 10000000000) }
    ensures greatest_nodata { GREATEST_NODATA ≡ pos 10000000000 }
    ensures greatest_spacing { GREATEST_SPACING ≡ 1073741824 }
{}

/// With spill parents rules 4 to 9 make `con` the spill level of each data cell, and the least surface that drains.
pub fn least_from_rules()
    ensures { LeastFromRules }
{}

/// Without spill parents rules 4, 5 and 9, with 10 to 12, do so.
pub fn least_from_rules_profile2()
    ensures { LeastFromRulesProfile2 }
{}

/// A rule that holds at a cell in the profile with spill parents holds there in the profile without.
pub fn profile2_from_profile1()
    ensures { Profile2FromProfile1 }
{}

/// If rules 10 to 12 hold at every cell, no code climbs, each run visits a cell at most once and ends at an outlet, and
/// the code is 0 exactly at the outlets.
pub fn runs_end()
    ensures { RunsEnd }
{}

/// Rules 10 to 13 make `acc` the number of cells that drain through the cell.
pub fn counts_upstream()
    ensures { CountsUpstream }
{}

/// If rules 10 to 12, 14 and 15 hold at every cell, two data cells have equal labels exactly if their runs end in the
/// same cell.
pub fn labels_are_basins()
    ensures { LabelsAreBasins }
{}

/// If all rules of a check hold at every cell, the products are correct, and no run visits a cell twice and each ends
/// at an outlet.
pub fn correct_from_rules()
    ensures { CorrectFromRules }
{}

/// If the products are correct and each rank is the number of steps of the cell's run, every rule of a check holds at
/// every cell: with such ranks a rejection means wrong products.
pub fn rules_from_correct()
    ensures { RulesFromCorrect }
{}

/// If every run ends, a rule of a check holds at a cell with the numbers of steps as ranks exactly if it holds without.
pub fn ranks_play_no_part()
    ensures { RanksPlayNoPart }
{}

/// With the numbers of steps as ranks, every rule of a check holds at every cell exactly if the products are correct.
pub fn rules_are_correct()
    ensures { RulesAreCorrect }
{}

/// Products are correct exactly if every run ends and every rule without ranks holds at every cell.
pub fn correct_is_local()
    ensures { CorrectIsLocal }
{}

/// If rules 10 to 13 hold without ranks at every cell, the run of every data cell ends: `acc` can't grow by one at each
/// cell of a ring.
pub fn runs_end_by_counts()
    ensures { RunsEndByCounts }
{}

/// Products are correct exactly if every rule without ranks holds at every cell: no run has to be followed.
pub fn correct_by_rules_alone()
    ensures { CorrectByRulesAlone }
{}

/// If products are correct, no run visits a cell twice, and each ends at an outlet.
pub fn sound_from_correct()
    ensures { SoundFromCorrect }
{}

/// If each listed cell's answer is right for a grid, the least line without data by these answers is right for it too.
pub fn found_off_data_is_right()
    ensures { FoundOffDataIsRight }
{}

/// Which cells are open if none is listed as a sink: those with data on the edge of the grid or next to a void.
pub fn open_without_sinks()
    ensures { OpenWithoutSinks }
{}

/// Keys compare as slopes do: drop over distance.
pub fn keys_compare_slopes()
    ensures { KeysCompareSlopes }
{}

/// Numbers of heights are ordered as the heights that they stand for.
pub fn numbers_order_heights()
    ensures { NumbersOrderHeights }
{}

/// The heights of a least surface are the least among all heights, not only among those that have numbers.
pub fn least_among_heights()
    ensures { LeastAmongHeights }
{}

/// On unit spacing a key is twice the square of the drop along a row or a column, and its square across a corner.
pub fn keys_on_unit_spacing()
    ensures { KeysOnUnitSpacing }
{}
