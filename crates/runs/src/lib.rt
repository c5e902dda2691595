// Runs of a unit: every list of calls on a new one, and the law of every run.
#![tactic(auto)]

pub mod exhibits;
pub mod run;
