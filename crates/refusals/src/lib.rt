// Every way in which a call refuses or an answer is turned down, each with its number.
#![tactic(auto)]

pub mod cause;
pub mod fault;
pub mod refusal;
