// Commitments to what a mask holds or an answer shows, for every relation and every scheme.
#![tactic(auto)]

pub mod decoding;
pub mod images;
pub mod limits;
pub mod rearranged;
