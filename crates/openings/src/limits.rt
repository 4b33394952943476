// What the moves ask of a scheme and of a work area.
ghost use Rattle.std.specs.Prelude.{◌≡◌, ◌≤◌, not, nat_lt};
ghost use Rattle.refusals.specs.Answers.{Answered};
ghost use Rattle.moves.specs.Sizes.{committed_size, limit_fault, work_size};

use commitment::scheme::Scheme;
use refusals::refusal::Refusal;
use relation::Relation;

// Says whether the scheme takes the longest message that is committed to.
pub fn limit_suffices<R: Relation, S: Scheme>(relation: &R, scheme: &S) -> bool
    ensures { result ≡ not (nat_lt (S.Scheme.meaning scheme.now).limit (committed_size (R.Relation.meaning relation.now))) }
{
    let entries = relation.layer_count() * relation.layer_len();
    2 * entries + 2 * relation.image_len() <= scheme.limit()
}

// Refuses a scheme that does not take the longest message that is committed to.
pub fn check_limit<R: Relation, S: Scheme>(relation: &R, scheme: &S) -> Result<(), Refusal>
    ensures { Answered (limit_fault (R.Relation.meaning relation.now) (S.Scheme.meaning scheme.now)) result (λ _. committed_size (R.Relation.meaning relation.now) ≤ (S.Scheme.meaning scheme.now).limit) (Unit {0}) }
{
    if !limit_suffices(relation, scheme) {
        return Err(Refusal::SchemeLimit);
    }
    Ok(())
}

// How many residues the work area holds: all layers and a free part.
pub fn work_size<R: Relation>(relation: &R) -> usize
    ensures { result ≡ work_size (R.Relation.meaning relation.now) }
{
    relation.layer_count() * relation.layer_len() + relation.free_len()
}
