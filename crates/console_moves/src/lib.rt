// The console's two moves without its lines: the commitments message of a mask, and the answer to a challenge.
#![tactic(auto)]

pub mod answering;
pub mod committing;
