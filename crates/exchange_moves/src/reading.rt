// Reading an answer, and the checks on it that need no commitment.
ghost use Rattle.std.specs.Prelude.{◌≡◌, Some, MatchResult};
ghost use Rattle.moves.specs.Moves.{Triple};
ghost use Rattle.moves.specs.Causes.{cause as cause_of_no, sizes as message_sizes};
ghost use Rattle.exchange_moves.specs.Stages.{Checked, Early};

use answer_checks::check_answer;
use commitment::scheme::Scheme;
use messages::challenge::Challenge;
use messages::fields::{Answer, Sizes};
use messages::reader::read_answer;
use refusals::cause::Cause;
use relation::Relation;

// The lengths of the contents of an answer.
fn content_sizes<R: Relation, S: Scheme>(relation: &R, scheme: &S) -> Sizes
    ensures { result ≡ message_sizes (R.Relation.meaning relation.now) (S.Scheme.meaning scheme.now) }
{
    Sizes {
        layers: 2 * relation.layout().size(),
        free: 2 * relation.free_len(),
        width: scheme.width(),
    }
}

// Reads the answer to a challenge; a fault of the message, a residue that is not below the modulus and a list that is no permutation
// are causes of a no.
pub fn read_checked<'a, R: Relation, S: Scheme>(
    relation: &R,
    scheme: &S,
    challenge: Challenge,
    message: &'a [u8],
) -> Result<Answer<'a>, Cause>
    ensures { MatchResult result
        (λ answer. Checked (R.Relation.meaning relation.now) (S.Scheme.meaning scheme.now) challenge message.now answer)
        (λ cause. Early cause × ((c : Triple) → cause_of_no (R.Relation.meaning relation.now) (S.Scheme.meaning scheme.now) c challenge message.now ≡ Some cause)) }
{
    let answer = read_answer(message, challenge, content_sizes(relation, scheme))?;
    check_answer(&answer, relation.modulus(), relation.layout())?;
    Ok(answer)
}
