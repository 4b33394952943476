// Masks: drawing one from random bytes, and checking one.
#![tactic(auto)]

pub mod draw;
pub mod mask;
pub mod permutations;
mod residues;
pub mod source;
