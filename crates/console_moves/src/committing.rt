// The first move: three commitments to a mask and a key.
ghost use Rattle.std.specs.Prelude.{◌≡◌, ◌+◌, ◌*◌, ◌≤◌, length};
ghost use Rattle.refusals.specs.Answers.{Answered};
ghost use Rattle.vectors.specs.Over.{zeros};
ghost use Rattle.relation.specs.Meaning.{Layers};
ghost use Rattle.commitment.specs.Meaning.{Fresh};
ghost use Rattle.masks.specs.Mask.{WellFormed};
ghost use Rattle.masks.specs.Held.{mask_in};
ghost use Rattle.messages.specs.Writing.{Wrote};
ghost use Rattle.moves.specs.Sizes.{committed_size};
ghost use Rattle.console_moves.specs.Faults.{commit_fault, commitments_message};
ghost use Rattle.console_moves.specs.Steps.{commit_checks, CommitReady, commitments_masked, masked_message, Made};

use commitment::scheme::Scheme;
use masks::mask::Mask;
use messages::fields::Triple;
use messages::writer::write_commitments;
use openings::images::{ImageKind, commit_with_image};
use openings::limits::{check_limit, work_size};
use openings::rearranged::commit_rearranged;
use refusals::refusal::Refusal;
use relation::Relation;
use vectors::modular::add;
use vectors::part::Part;
use vectors::zeroing::ZeroOnDrop;

// Writes the commitments message at the start of the output, and says how long it is. The whole work area is zeros afterwards.
pub fn commit<R: Relation, S: Scheme>(
    relation: &R,
    scheme: &mut S,
    key: &[R::Entry],
    mask: Mask,
    work: &mut [u16],
    out: &mut [u8],
) -> Result<usize, Refusal>
    ensures outcome { Answered (commit_fault (R.Relation.meaning relation.now) (S.Scheme.meaning scheme.old) key.now (mask_in mask.entry) (length work.old) (length out.old)) result
        (λ n. Wrote out.old (commitments_message (R.Relation.meaning relation.now) (S.Scheme.meaning scheme.old) key.now (mask_in mask.entry)) out.new n × Fresh (S.Scheme.meaning scheme.old) (S.Scheme.state scheme.new))
        ((out.new ≡ out.old) × (scheme.new ≡ scheme.old)) }
    ensures kept { S.Scheme.meaning scheme.new ≡ S.Scheme.meaning scheme.old }
    ensures zeroed { work.new ≡ zeros (length work.old) }
{
    let guard = ZeroOnDrop { area: work };
    check_call(relation, scheme, mask, guard.area.len(), out.len())?;
    write_message(relation, scheme, key, mask, guard.area, out)
}

// Looks at everything but the key.
fn check_call<R: Relation, S: Scheme>(
    relation: &R,
    scheme: &S,
    mask: Mask,
    work_len: usize,
    out_len: usize,
) -> Result<(), Refusal>
    ensures { Answered (commit_checks (R.Relation.meaning relation.now) (S.Scheme.meaning scheme.now) (mask_in mask.entry) work_len out_len) result (λ _. CommitReady (R.Relation.meaning relation.now) (S.Scheme.meaning scheme.now) (mask_in mask.entry) work_len out_len) (Unit {0}) }
{
    check_limit(relation, scheme)?;
    mask.check(relation, scheme)?;
    if work_len < work_size(relation) || out_len < 9 + 3 * scheme.width() {
        return Err(Refusal::RoomShort);
    }
    Ok(())
}

// Writes the message of a mask that was checked.
fn write_message<R: Relation, S: Scheme>(
    relation: &R,
    scheme: &mut S,
    key: &[R::Entry],
    mask: Mask,
    work: &mut [u16],
    out: &mut [u8],
) -> Result<usize, Refusal>
    requires { CommitReady (R.Relation.meaning relation.now) (S.Scheme.meaning scheme.old) (mask_in mask) (length work.old) (length out.old) }
    ensures outcome { Answered ((R.Relation.meaning relation.now).key_fault key.now) result
        (λ n. Wrote out.old (commitments_message (R.Relation.meaning relation.now) (S.Scheme.meaning scheme.old) key.now (mask_in mask.entry)) out.new n × Fresh (S.Scheme.meaning scheme.old) (S.Scheme.state scheme.new))
        ((out.new ≡ out.old) × (scheme.new ≡ scheme.old)) }
    ensures kept { S.Scheme.meaning scheme.new ≡ S.Scheme.meaning scheme.old }
{
    let (masked, rest) = work.split_at_mut(relation.layout().size());
    let (key_free, _) = rest.split_at_mut(relation.free_len());
    relation.split(key, masked, key_free)?;
    add(masked, mask.layers, relation.modulus());
    Ok(commit_masked(relation, scheme, mask, masked, out))
}

// Writes the message of a mask that was checked; `masked` is R + E.
fn commit_masked<R: Relation, S: Scheme>(
    relation: &R,
    scheme: &mut S,
    mask: Mask,
    masked: &[u16],
    out: &mut [u8],
) -> usize
    requires formed { WellFormed (R.Relation.meaning relation.now) (S.Scheme.meaning scheme.old).width (mask_in mask) }
    requires masked { Layers (R.Relation.meaning relation.now) masked.now }
    requires limit { committed_size (R.Relation.meaning relation.now) ≤ (S.Scheme.meaning scheme.old).limit }
    requires room { 9 + 3 * (S.Scheme.meaning scheme.old).width ≤ length out.old }
    ensures wrote { Wrote out.old (masked_message (R.Relation.meaning relation.now) (S.Scheme.meaning scheme.old) (mask_in mask.entry) masked.now) out.new result }
    ensures fresh { Fresh (S.Scheme.meaning scheme.old) (S.Scheme.state scheme.new) }
    ensures kept { S.Scheme.meaning scheme.new ≡ S.Scheme.meaning scheme.old }
{
    let width = scheme.width();
    let mut first = [0u8; 128];
    let one = &mut first[0..width];
    let mut second = [0u8; 128];
    let two = &mut second[0..width];
    let mut third = [0u8; 128];
    let three = &mut third[0..width];
    commit_three(relation, scheme, mask, masked, one, two, three);
    write_commitments(out, Triple { one, two, three }).unwrap()
}

// Makes the three commitments of a mask that was checked; `masked` is R + E.
#[tactic(auto, using(crate::proofs::Asked::bytes_of_both))]
fn commit_three<R: Relation, S: Scheme>(
    relation: &R,
    scheme: &mut S,
    mask: Mask,
    masked: &[u16],
    one: &mut [u8],
    two: &mut [u8],
    three: &mut [u8],
)
    requires formed { WellFormed (R.Relation.meaning relation.now) (S.Scheme.meaning scheme.old).width (mask_in mask) }
    requires masked { Layers (R.Relation.meaning relation.now) masked.now }
    requires limit { committed_size (R.Relation.meaning relation.now) ≤ (S.Scheme.meaning scheme.old).limit }
    requires one { length one.old ≡ (S.Scheme.meaning scheme.old).width }
    requires two { length two.old ≡ (S.Scheme.meaning scheme.old).width }
    requires three { length three.old ≡ (S.Scheme.meaning scheme.old).width }
    ensures made { Made (commitments_masked (R.Relation.meaning relation.now) (S.Scheme.meaning scheme.old) (mask_in mask.entry) masked.now) one.new two.new three.new }
    ensures fresh { Fresh (S.Scheme.meaning scheme.old) (S.Scheme.state scheme.new) }
    ensures kept { S.Scheme.meaning scheme.new ≡ S.Scheme.meaning scheme.old }
{
    let layout = relation.layout();
    let positions = Part::Words(mask.permutations);
    let (coins_1, coins_2, coins_3) = mask.coin_strings(scheme.width());
    commit_with_image(
        relation,
        scheme,
        coins_1,
        positions,
        mask.layers,
        mask.free,
        ImageKind::Whole,
        one,
    );
    commit_rearranged(scheme, coins_2, positions, mask.layers, layout, two);
    commit_rearranged(scheme, coins_3, positions, masked, layout, three);
}
