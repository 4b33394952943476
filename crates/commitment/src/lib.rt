// What every commitment scheme offers, and committing to messages that are given in parts.
#![tactic(auto)]

pub mod message;
pub mod part;
pub mod scheme;
