// Tests of the two checks, the two serial formats and the window of pairs.
#![tactic(auto)]

#[cfg(test)]
mod check_vectors;
pub mod doublet;
#[cfg(test)]
mod enhanced_lists;
#[cfg(test)]
mod lists;
#[cfg(test)]
mod runs;
#[cfg(test)]
mod short_lists;
