// The third move: the answer to a challenge.
ghost use Rattle.std.specs.Prelude.{◌≡◌, length};
ghost use Rattle.refusals.specs.Answers.{Answered};
ghost use Rattle.vectors.specs.Over.{zeros};
ghost use Rattle.masks.specs.Held.{mask_in};
ghost use Rattle.messages.specs.Contents.{answer_slots, answer_written};
ghost use Rattle.messages.specs.Writing.{Wrote};
ghost use Rattle.moves.specs.Causes.{sizes};
ghost use Rattle.moves.specs.Moves.{answer as answer_of};
ghost use Rattle.moves.specs.Sizes.{total_size};
ghost use Rattle.console_moves.specs.Faults.{answer_fault, answer_message, challenge_numbered};
ghost use Rattle.console_moves.specs.Steps.{answer_checks, AnswerReady};

use commitment::scheme::Scheme;
use masks::mask::Mask;
use messages::challenge::Challenge;
use messages::writer::{write_first, write_second, write_third};
use openings::limits::work_size;
use refusals::refusal::Refusal;
use relation::Relation;
use vectors::modular::add;
use vectors::zeroing::ZeroOnDrop;

// Writes the answer to the challenge with this number at the start of the output, and says how long it is. Every number may be passed;
// those of no challenge are refused. The whole work area is zeros afterwards.
pub fn answer<R: Relation, S: Scheme>(
    relation: &R,
    scheme: &S,
    key: &[R::Entry],
    mask: Mask,
    challenge: u8,
    work: &mut [u16],
    out: &mut [u8],
) -> Result<usize, Refusal>
    ensures outcome { Answered (answer_fault (R.Relation.meaning relation.now) (S.Scheme.meaning scheme.now) key.now (mask_in mask.entry) challenge (length work.old) (length out.old)) result
        (λ n. Wrote out.old (answer_message (R.Relation.meaning relation.now) (S.Scheme.meaning scheme.now) key.now (mask_in mask.entry) challenge) out.new n)
        (out.new ≡ out.old) }
    ensures zeroed { work.new ≡ zeros (length work.old) }
{
    let guard = ZeroOnDrop { area: work };
    let asked = check_call(
        relation,
        scheme,
        mask,
        challenge,
        guard.area.len(),
        out.len(),
    )?;
    write_answer(relation, scheme, key, mask, asked, guard.area, out)
}

// Looks at everything but the key, and gives the challenge that has this number.
fn check_call<R: Relation, S: Scheme>(
    relation: &R,
    scheme: &S,
    mask: Mask,
    challenge: u8,
    work_len: usize,
    out_len: usize,
) -> Result<Challenge, Refusal>
    ensures { Answered (answer_checks (R.Relation.meaning relation.now) (S.Scheme.meaning scheme.now) (mask_in mask.entry) challenge work_len out_len) result (λ asked. (asked ≡ challenge_numbered challenge) × AnswerReady (R.Relation.meaning relation.now) (S.Scheme.meaning scheme.now) (mask_in mask.entry) asked work_len out_len) (Unit {0}) }
{
    mask.check(relation, scheme)?;
    let asked = Challenge::try_from(challenge)?;
    if work_len < work_size(relation) || out_len < answer_size(relation, scheme, asked) {
        return Err(Refusal::RoomShort);
    }
    Ok(asked)
}

fn answer_size<R: Relation, S: Scheme>(relation: &R, scheme: &S, asked: Challenge) -> usize
    ensures { result ≡ total_size (answer_slots asked (sizes (R.Relation.meaning relation.now) (S.Scheme.meaning scheme.now))) }
{
    let layers = 2 * relation.layout().size();
    let strings = 2 * scheme.width();
    match asked {
        Challenge::One => 12 + 2 * layers + strings,
        Challenge::Two | Challenge::Three => 15 + 2 * layers + 2 * relation.free_len() + strings,
    }
}

// Writes the answer of a mask that was checked, with the key's parts at the start of the work area.
fn write_answer<R: Relation, S: Scheme>(
    relation: &R,
    scheme: &S,
    key: &[R::Entry],
    mask: Mask,
    asked: Challenge,
    work: &mut [u16],
    out: &mut [u8],
) -> Result<usize, Refusal>
    requires { AnswerReady (R.Relation.meaning relation.now) (S.Scheme.meaning scheme.now) (mask_in mask) asked (length work.old) (length out.old) }
    ensures { Answered ((R.Relation.meaning relation.now).key_fault key.now) result (λ n. Wrote out.old (answer_written (answer_of (R.Relation.meaning relation.now) (S.Scheme.meaning scheme.now) key.now (mask_in mask.entry) asked)) out.new n) (out.new ≡ out.old) }
{
    let layout = relation.layout();
    let (key_layers, rest) = work.split_at_mut(layout.size());
    let (key_free, _) = rest.split_at_mut(relation.free_len());
    relation.split(key, key_layers, key_free)?;
    let (coins_1, coins_2, coins_3) = mask.coin_strings(scheme.width());
    let size = match asked {
        Challenge::One => write_first(
            out,
            mask.permutations,
            key_layers,
            mask.layers,
            layout,
            coins_2,
            coins_3,
        ),
        Challenge::Two => {
            add(key_layers, mask.layers, relation.modulus());
            add(key_free, mask.free, relation.modulus());
            write_second(
                out,
                mask.permutations,
                key_layers,
                key_free,
                coins_1,
                coins_3,
            )
        }
        Challenge::Three => write_third(
            out,
            mask.permutations,
            mask.layers,
            mask.free,
            coins_1,
            coins_2,
        ),
    };
    Ok(size)
}
