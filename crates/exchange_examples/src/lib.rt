// The exchange on examples: dice by its definition, and run, each refusal, each cause of a no, and the log.
#![tactic(auto)]

ghost use Rattle.std.specs.Prelude.{ℕ, List};
ghost use Rattle.exchange_examples.specs.Examples.{Examples};

use exchange_steps::log::Record;

// The examples are what the definition of dice gives.
pub fn examples_hold()
    ensures { (table : List (List ℕ)) (entries used : ℕ) (records : List Record) (bytes : List ℕ) → Examples table entries used records bytes }
{}

#[cfg(test)]
mod changed;
#[cfg(test)]
mod desk;
#[cfg(test)]
mod honest;
#[cfg(test)]
mod judging;
#[cfg(test)]
mod refusing;
