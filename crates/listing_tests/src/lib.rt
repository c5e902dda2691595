// Tests of the listing of whole unit files.
#![tactic(auto)]

#[cfg(test)]
mod files;
#[cfg(test)]
mod messages;
