// The three moves on cases that another program has computed (tests/vectors): masks, commitments and answers come out byte for
// byte, these answers are accepted, and changed ones get their causes.
#![tactic(auto)]

#[cfg(test)]
mod cases;
#[cfg(test)]
mod digits;
#[cfg(test)]
mod expected;
#[cfg(test)]
mod judged;
#[cfg(test)]
mod made;
#[cfg(test)]
mod noise;
#[cfg(test)]
mod running;
#[cfg(test)]
mod short;
#[cfg(test)]
mod strangers;
#[cfg(test)]
mod stream;
#[cfg(test)]
mod weight;
