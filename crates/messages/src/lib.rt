// Messages between console and exchange: reading and writing them, field by field.
#![tactic(auto)]

pub mod challenge;
pub mod fields;
pub mod reader;
pub mod theorems;
pub mod writer;
