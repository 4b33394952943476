// What the console's calls do, as definitions, and what holds over every list of calls.
#![tactic(auto)]

pub mod laws;
pub mod lines;
