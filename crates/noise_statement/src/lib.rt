// Noise statements.
#![tactic(auto)]

pub mod noise;
