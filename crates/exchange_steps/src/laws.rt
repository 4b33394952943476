// The laws of an exchange, over every list of its calls.
ghost use Rattle.exchange_steps.specs.Laws.{ExchangeLaws};

use commitment::scheme::Scheme;
use relation::Relation;

// A line holds what its last open and dice brought, and the log in memory is the list of the yeses that were given.
pub fn exchange_laws<R: Relation, S: Scheme>(relation: &R, scheme: &S)
    ensures { ExchangeLaws (R.Relation.meaning relation.now) (S.Scheme.meaning scheme.now) }
{}
