// The two serial formats: the short one and the enhanced one.
#![tactic(auto)]

pub mod enhanced;
pub mod layout;
pub mod short;
