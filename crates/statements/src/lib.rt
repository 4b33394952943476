// What every kind of statement is made of.
#![tactic(auto)]

pub mod bits;
pub mod checked;
pub mod checks;
pub mod counts;
pub mod given;
pub mod products;
