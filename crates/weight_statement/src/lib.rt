// Weight statements.
#![tactic(auto)]

pub mod weight;
