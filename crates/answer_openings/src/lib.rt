// Checks on a read answer that need the shapes of layers or commitments.
#![tactic(auto)]

pub mod first;
pub mod long;
pub mod opening;
pub mod shapes;
