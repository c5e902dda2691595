// Tests of the unit over captures: order, readings, refusals and runs.
#![tactic(auto)]

#[cfg(test)]
mod messages;
#[cfg(test)]
mod units;
#[cfg(test)]
mod whole_runs;
