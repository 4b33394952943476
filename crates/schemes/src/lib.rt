// The commitment schemes: the hash scheme, and the labelled scheme over any scheme.
#![tactic(auto)]

pub mod hash;
pub mod labelled;
