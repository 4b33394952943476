// SHA-256 of FIPS 180-4, for messages of whole bytes.
#![tactic(auto)]

mod block;
mod blocks;
mod constants;
mod hasher;
mod limit;
mod padding;
mod round;
mod schedule;
mod state;
mod word;

pub use hasher::digest;
pub use limit::TooLong;
pub use state::Sha256;
