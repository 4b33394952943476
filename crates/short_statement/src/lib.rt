// Short statements.
#![tactic(auto)]

mod entries;
mod layers;
pub mod short;
mod sums;
