// The laws of a console, over every list of its calls.
ghost use Rattle.console_steps.specs.Laws.{ConsoleLaws};

use commitment::scheme::Scheme;
use relation::Relation;

// No load's mask is answered twice, a line's memory is what its history says, and a console that was made refuses no call by 56,
// where a key is refused by the key's numbers alone.
#[tactic(auto, using(crate::proofs::Lawful::console_lawful))]
pub fn console_laws<R: Relation, S: Scheme>(relation: &R, scheme: &S)
    ensures { ConsoleLaws (R.Relation.meaning relation.now) (S.Scheme.meaning scheme.now) }
{}
