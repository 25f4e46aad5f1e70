//! Tests of checks and audits of small products, from their bytes to the line of the answer. The lines were worked out
//! by hand from the rules.
#![tactic(auto)]

#[cfg(test)]
mod agree;
#[cfg(test)]
mod audits;
#[cfg(test)]
mod bytes;
#[cfg(test)]
mod certified;
#[cfg(test)]
mod certified_path;
#[cfg(test)]
mod cuts;
#[cfg(test)]
mod example;
#[cfg(test)]
mod faults;
#[cfg(test)]
mod huge_numbers;
#[cfg(test)]
mod inputs;
#[cfg(test)]
mod listed_sinks;
#[cfg(test)]
mod many_sinks;
#[cfg(test)]
mod runs;
#[cfg(test)]
mod second_checks;
#[cfg(test)]
mod sources;
#[cfg(test)]
mod spacings;
#[cfg(test)]
mod tells;
