// The console (prover): its lines hold masks, and it commits to them and answers challenges.
#![tactic(auto)]

pub mod console;
mod memory;
pub mod slips;
