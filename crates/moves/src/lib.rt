// The three moves, for every relation and every scheme: complete, sound and hiding, and the decision on an answer.
#![tactic(auto)]

ghost use Rattle.moves.specs.Claims.{Complete, Sound, Hiding};
ghost use Rattle.moves.specs.Causes.{Decided};

use commitment::scheme::Scheme;
use relation::Relation;

// The answer that a console makes is accepted.
pub fn complete<R: Relation, S: Scheme>(relation: &R, scheme: &S)
    ensures { Complete (R.Relation.meaning relation.now) (S.Scheme.meaning scheme.now) }
{}

// Three accepted answers to the same commitments give an extracted key, or one of these commitments is broken.
pub fn sound<R: Relation, S: Scheme>(relation: &R, scheme: &S)
    ensures { Sound (R.Relation.meaning relation.now) (S.Scheme.meaning scheme.now) }
{}

// What is seen of one round tells no key from another.
pub fn hiding<R: Relation, S: Scheme>(relation: &R, scheme: &S)
    ensures { Hiding (R.Relation.meaning relation.now) (S.Scheme.meaning scheme.now) }
{}

// The computed cause decides whether a message is an accepted answer.
pub fn decided<R: Relation, S: Scheme>(relation: &R, scheme: &S)
    ensures { Decided (R.Relation.meaning relation.now) (S.Scheme.meaning scheme.now) }
{}
