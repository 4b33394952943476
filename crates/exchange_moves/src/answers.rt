// Judging an answer that passed the checks without commitments.
ghost use Rattle.std.specs.Prelude.{◌≡◌, ◌≤◌, length};
ghost use Rattle.std.specs.Result.{result_err};
ghost use Rattle.commitment.specs.Meaning.{Fresh};
ghost use Rattle.messages.specs.Contents.{said_by};
ghost use Rattle.moves.specs.Sizes.{committed_size, work_size};
ghost use Rattle.exchange_moves.specs.Verdicts.{lent, Leaves};
ghost use Rattle.exchange_moves.specs.Stages.{AnswerReady, later_cause};

use crate::first::judge_first;
use answer_openings::long::{LongParts, open_long};
use answer_openings::opening::Shown;
use commitment::scheme::Scheme;
use messages::fields::{Answer, Triple};
use openings::images::ImageKind;
use refusals::cause::Cause;
use relation::Relation;

// The causes of a no that need shapes or commitments.
pub fn judge_answer<'a, R: Relation, S: Scheme>(
    relation: &R,
    scheme: &mut S,
    commitments: Triple<'a>,
    answer: Answer<'a>,
    work: &mut [u16],
) -> Result<(), Cause>
    requires ready { AnswerReady (R.Relation.meaning relation.now) (S.Scheme.meaning scheme.old).width answer }
    requires limit { committed_size (R.Relation.meaning relation.now) ≤ (S.Scheme.meaning scheme.old).limit }
    requires work { length work.old ≡ work_size (R.Relation.meaning relation.now) }
    ensures verdict { result_err result ≡ later_cause (R.Relation.meaning relation.now) (S.Scheme.meaning scheme.old) (lent commitments.entry) (said_by answer.entry) }
    ensures leaves { Leaves (result_err result) (Fresh (S.Scheme.meaning scheme.old) (S.Scheme.state scheme.new)) (scheme.new ≡ scheme.old) }
    ensures kept { S.Scheme.meaning scheme.new ≡ S.Scheme.meaning scheme.old }
{
    let Triple { one, two, three } = commitments;
    match answer {
        Answer::First {
            permuted_key: key,
            permuted_mask: mask,
            coins_2,
            coins_3,
        } => {
            let second = Shown::new(two, 2, coins_2);
            let third = Shown::new(three, 3, coins_3);
            judge_first(relation, scheme, second, third, key, mask, work)
        }
        Answer::Second {
            permutations,
            masked_key,
            masked_free,
            coins_1,
            coins_3,
        } => {
            let first = Shown::new(one, 1, coins_1);
            let third = Shown::new(three, 3, coins_3);
            let parts = LongParts::new(permutations, masked_key, masked_free);
            let kind = ImageKind::LessTarget;
            open_long(relation, scheme, first, third, parts, kind, work)
        }
        Answer::Third {
            permutations,
            mask,
            free,
            coins_1,
            coins_2,
        } => {
            let first = Shown::new(one, 1, coins_1);
            let second = Shown::new(two, 2, coins_2);
            let parts = LongParts::new(permutations, mask, free);
            let kind = ImageKind::Whole;
            open_long(relation, scheme, first, second, parts, kind, work)
        }
    }
}
