// Opening commitment 1 and another one by an answer to challenge 2 or 3.
ghost use Rattle.std.specs.Prelude.{◌≡◌, ◌*◌, ◌≤◌, length};
ghost use Rattle.std.specs.Result.{result_err};
ghost use Rattle.vectors.specs.Layers.{Permutations};
ghost use Rattle.vectors.specs.Words.{bytes, words};
ghost use Rattle.relation.specs.Meaning.{Layers, Free};
ghost use Rattle.commitment.specs.Meaning.{Fresh};
ghost use Rattle.moves.specs.Sizes.{committed_size, work_size};
ghost use Rattle.answer_openings.specs.Openings.{LongReady, long_cause};

use crate::opening::{Shown, has_value};
use commitment::scheme::Scheme;
use messages::fields::Field;
use openings::images::{ImageKind, commit_with_image};
use openings::rearranged::commit_rearranged;
use refusals::cause::Cause;
use relation::Relation;
use vectors::encoding::read_words;
use vectors::part::Part;

// What an answer to challenge 2 or 3 shows beside its coins.
#[derive(Clone, Copy)]
pub struct LongParts<'a> {
    pub permutations: &'a [u8],
    pub layers: &'a [u8],
    pub free: &'a [u8],
}

impl<'a> LongParts<'a> {
    pub fn new(permutations: Field<'a>, layers: Field<'a>, free: Field<'a>) -> LongParts<'a>
        ensures { result ≡ record { permutations = permutations.entry.content; layers = layers.entry.content; free = free.entry.content } }
    {
        LongParts {
            permutations: permutations.content,
            layers: layers.content,
            free: free.content,
        }
    }
}

// The lower commitment to the permutations and the image of this kind, then the upper one to the layers that the permutations move.
pub fn open_long<R: Relation, S: Scheme>(
    relation: &R,
    scheme: &mut S,
    lower: Shown,
    upper: Shown,
    parts: LongParts,
    kind: ImageKind,
    work: &mut [u16],
) -> Result<(), Cause>
    requires ready { LongReady (R.Relation.meaning relation.now) (S.Scheme.meaning scheme.old).width parts.permutations.now parts.layers.now parts.free.now lower.coins.now upper.coins.now }
    requires limit { committed_size (R.Relation.meaning relation.now) ≤ (S.Scheme.meaning scheme.old).limit }
    requires work { length work.old ≡ work_size (R.Relation.meaning relation.now) }
    ensures verdict { result_err result ≡ long_cause (R.Relation.meaning relation.now) (S.Scheme.meaning scheme.old) lower.entry upper.entry kind (words parts.entry.permutations.now) (words parts.entry.layers.now) (words parts.entry.free.now) }
    ensures fresh { Fresh (S.Scheme.meaning scheme.old) (S.Scheme.state scheme.new) }
    ensures kept { S.Scheme.meaning scheme.new ≡ S.Scheme.meaning scheme.old }
{
    let (layers, free) = work.split_at_mut(relation.layout().size());
    read_words(parts.layers, layers);
    read_words(parts.free, free);
    open_numbers(
        relation,
        scheme,
        lower,
        upper,
        parts.permutations,
        layers,
        free,
        kind,
    )
}

// The same once the layers and the free part are numbers.
fn open_numbers<R: Relation, S: Scheme>(
    relation: &R,
    scheme: &mut S,
    lower: Shown,
    upper: Shown,
    permutations: &[u8],
    layers: &[u16],
    free: &[u16],
    kind: ImageKind,
) -> Result<(), Cause>
    requires permutations_size { length permutations.now ≡ 2 * ((R.Relation.meaning relation.now).layer_count * (R.Relation.meaning relation.now).layer_len) }
    requires permuting { Permutations (R.Relation.meaning relation.now).layer_len (R.Relation.meaning relation.now).layer_count (words permutations.now) }
    requires permutations_bytes { bytes (words permutations.now) ≡ permutations.now }
    requires layers { Layers (R.Relation.meaning relation.now) layers.now }
    requires free { Free (R.Relation.meaning relation.now) free.now }
    requires limit { committed_size (R.Relation.meaning relation.now) ≤ (S.Scheme.meaning scheme.old).limit }
    requires lower { length lower.coins.now ≡ (S.Scheme.meaning scheme.old).width }
    requires upper { length upper.coins.now ≡ (S.Scheme.meaning scheme.old).width }
    ensures verdict { result_err result ≡ long_cause (R.Relation.meaning relation.now) (S.Scheme.meaning scheme.old) lower.entry upper.entry kind (words permutations.now) layers.now free.now }
    ensures fresh { Fresh (S.Scheme.meaning scheme.old) (S.Scheme.state scheme.new) }
    ensures kept { S.Scheme.meaning scheme.new ≡ S.Scheme.meaning scheme.old }
{
    let positions = Part::Bytes(permutations);
    let mut buffer = [0u8; 128];
    let value = &mut buffer[0..scheme.width()];
    commit_with_image(
        relation,
        scheme,
        lower.coins,
        positions,
        layers,
        free,
        kind,
        value,
    );
    lower.check(has_value(lower, value))?;
    let layout = relation.layout();
    commit_rearranged(scheme, upper.coins, positions, layers, layout, value);
    upper.check(has_value(upper, value))
}
