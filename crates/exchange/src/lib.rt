// The exchange (verifier): its lines take commitments, throw a challenge and judge the answer; each yes is logged.
#![tactic(auto)]

pub mod exchange;
