// Judging an answer to challenge 1: P(E) and P(R), and the coins of commitments 2 and 3.
ghost use Rattle.std.specs.Prelude.{◌≡◌, ◌≤◌, length};
ghost use Rattle.std.specs.Result.{result_err};
ghost use Rattle.vectors.specs.Words.{words};
ghost use Rattle.commitment.specs.Meaning.{Fresh};
ghost use Rattle.moves.specs.Sizes.{committed_size, work_size};
ghost use Rattle.exchange_moves.specs.Verdicts.{Leaves};
ghost use Rattle.exchange_moves.specs.Stages.{FirstReady, first_cause};

use answer_openings::first::open_first;
use answer_openings::opening::Shown;
use answer_openings::shapes::first_misshapen;
use commitment::scheme::Scheme;
use messages::fields::Field;
use refusals::cause::Cause;
use relation::Relation;
use vectors::encoding::read_words;

// The shapes of P(E), then commitments 2 and 3.
pub fn judge_first<R: Relation, S: Scheme>(
    relation: &R,
    scheme: &mut S,
    second: Shown,
    third: Shown,
    key: Field,
    mask: Field,
    work: &mut [u16],
) -> Result<(), Cause>
    requires ready { FirstReady (R.Relation.meaning relation.now) (S.Scheme.meaning scheme.old).width key.content.now mask.content.now second.coins.now third.coins.now }
    requires limit { committed_size (R.Relation.meaning relation.now) ≤ (S.Scheme.meaning scheme.old).limit }
    requires work { length work.old ≡ work_size (R.Relation.meaning relation.now) }
    ensures verdict { result_err result ≡ first_cause (R.Relation.meaning relation.now) (S.Scheme.meaning scheme.old) second.entry third.entry (words key.entry.content.now) (words mask.entry.content.now) }
    ensures leaves { Leaves (result_err result) (Fresh (S.Scheme.meaning scheme.old) (S.Scheme.state scheme.new)) (scheme.new ≡ scheme.old) }
    ensures kept { S.Scheme.meaning scheme.new ≡ S.Scheme.meaning scheme.old }
{
    let layers = &mut work[0..relation.layout().size()];
    read_words(key.content, layers);
    if let Some(layer) = first_misshapen(relation, layers) {
        return Err(Cause::ShapeMissing { layer });
    }
    open_first(
        scheme,
        second,
        third,
        mask.content,
        layers,
        relation.modulus(),
    )
}
