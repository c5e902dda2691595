// Tests of captures and unit files: every refusal with its precedence, and the events of records.
#![tactic(auto)]

#[cfg(test)]
mod opening;
#[cfg(test)]
mod refusing;
#[cfg(test)]
mod unit_files;
