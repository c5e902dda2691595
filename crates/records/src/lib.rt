// The records of captures: how they are cut out of bytes, and what is wrong with them.
#![tactic(auto)]

pub mod checking;
pub mod record;
