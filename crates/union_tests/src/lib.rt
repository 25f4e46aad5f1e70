//! Tests of windows of a small union, of their reports' texts and of merges, worked out by hand.
#![tactic(auto)]

#[cfg(test)]
mod agree;
#[cfg(test)]
mod join_refusals;
#[cfg(test)]
mod joined_boxes;
#[cfg(test)]
mod joined_texts;
#[cfg(test)]
mod merge_answers;
#[cfg(test)]
mod merge_dems;
#[cfg(test)]
mod merge_lines;
#[cfg(test)]
mod merge_maps;
#[cfg(test)]
mod merge_spacings;
#[cfg(test)]
mod merge_trees;
#[cfg(test)]
mod merged_box_refusals;
#[cfg(test)]
mod merged_boxes;
#[cfg(test)]
mod merged_windows;
#[cfg(test)]
mod merges;
#[cfg(test)]
mod report_faults;
#[cfg(test)]
mod report_round_trips;
#[cfg(test)]
mod report_texts;
#[cfg(test)]
mod window_cuts;
#[cfg(test)]
mod window_dems;
#[cfg(test)]
mod window_inputs;
#[cfg(test)]
mod window_lines;
#[cfg(test)]
mod window_places;
#[cfg(test)]
mod window_reports;
#[cfg(test)]
mod window_spacings;
