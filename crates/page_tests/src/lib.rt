//! Tests of the page of an explanation.
#![tactic(auto)]

#[cfg(test)]
mod agree;
#[cfg(test)]
mod dem;
#[cfg(test)]
mod dem_pages;
#[cfg(test)]
mod expected;
#[cfg(test)]
mod floats;
#[cfg(test)]
mod refusals;
#[cfg(test)]
mod runs;
#[cfg(test)]
mod slopes;
#[cfg(test)]
mod whole;
#[cfg(test)]
mod whole_pages;
#[cfg(test)]
mod worked;
