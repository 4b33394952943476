// The exchange's judgement without its lines and its log.
#![tactic(auto)]

mod answers;
mod first;
pub mod judging;
mod reading;
