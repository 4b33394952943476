// Whether an answer is accepted, and if not, why.
ghost use Rattle.std.specs.Prelude.{◌≡◌, ◌≤◌, length, IfOk};
ghost use Rattle.std.specs.Result.{result_err};
ghost use Rattle.refusals.specs.Answers.{Answered};
ghost use Rattle.vectors.specs.Over.{zeros};
ghost use Rattle.commitment.specs.Meaning.{Fresh};
ghost use Rattle.moves.specs.Causes.{cause};
ghost use Rattle.moves.specs.Sizes.{committed_size, work_size as area_size};
ghost use Rattle.exchange_moves.specs.Verdicts.{judge_fault, lent, Leaves, YesTo};

use crate::answers::judge_answer;
use crate::reading::read_checked;
use commitment::scheme::Scheme;
use messages::challenge::Challenge;
use messages::fields::Triple;
use openings::limits::{check_limit, work_size};
use refusals::cause::Cause;
use refusals::refusal::Refusal;
use relation::Relation;
use vectors::zeroing::ZeroOnDrop;

// What judging says of an answer: Ok is a yes, an Err carries the cause of the no.
pub type Verdict = Result<(), Cause>;

// Judges an answer to the challenge against three commitments. The whole work area is zeros afterwards.
pub fn judge<R: Relation, S: Scheme>(
    relation: &R,
    scheme: &mut S,
    commitments: Triple,
    challenge: Challenge,
    message: &[u8],
    work: &mut [u16],
) -> Result<Verdict, Refusal>
    ensures outcome { Answered (judge_fault (R.Relation.meaning relation.now) (S.Scheme.meaning scheme.old) (length work.old)) result
        (λ verdict. (result_err verdict ≡ cause (R.Relation.meaning relation.now) (S.Scheme.meaning scheme.old) (lent commitments.entry) challenge message.now) × Leaves (result_err verdict) (Fresh (S.Scheme.meaning scheme.old) (S.Scheme.state scheme.new)) (scheme.new ≡ scheme.old))
        (scheme.new ≡ scheme.old) }
    ensures decides { IfOk result (λ verdict. YesTo (R.Relation.meaning relation.now) (S.Scheme.meaning scheme.old) (lent commitments.entry) challenge message.now (result_err verdict)) }
    ensures kept { S.Scheme.meaning scheme.new ≡ S.Scheme.meaning scheme.old }
    ensures zeroed { work.new ≡ zeros (length work.old) }
{
    let guard = ZeroOnDrop { area: work };
    check_limit(relation, scheme)?;
    let size = work_size(relation);
    if guard.area.len() < size {
        return Err(Refusal::RoomShort);
    }
    let work = &mut guard.area[0..size];
    Ok(judge_message(relation, scheme, commitments, challenge, message, work))
}

// The same where the scheme and the work area suffice.
fn judge_message<R: Relation, S: Scheme>(
    relation: &R,
    scheme: &mut S,
    commitments: Triple,
    challenge: Challenge,
    message: &[u8],
    work: &mut [u16],
) -> Verdict
    requires limit { committed_size (R.Relation.meaning relation.now) ≤ (S.Scheme.meaning scheme.old).limit }
    requires work { length work.old ≡ area_size (R.Relation.meaning relation.now) }
    ensures verdict { result_err result ≡ cause (R.Relation.meaning relation.now) (S.Scheme.meaning scheme.old) (lent commitments.entry) challenge message.now }
    ensures leaves { Leaves (result_err result) (Fresh (S.Scheme.meaning scheme.old) (S.Scheme.state scheme.new)) (scheme.new ≡ scheme.old) }
    ensures kept { S.Scheme.meaning scheme.new ≡ S.Scheme.meaning scheme.old }
{
    let answer = read_checked(relation, scheme, challenge, message)?;
    judge_answer(relation, scheme, commitments, answer, work)
}
