// Leaf work over lent slices, and the guard that zeroes a lent area.
#![tactic(auto)]

pub mod encoding;
pub mod layout;
pub mod modular;
pub mod part;
pub mod parts;
pub mod permuting;
pub mod testing;
pub mod zeroing;
