// Drawing a mask from random bytes.
ghost use Rattle.std.specs.Prelude.{◌≡◌, ℕ, ◌*◌, length};
ghost use Rattle.refusals.specs.Answers.{Answered};
ghost use Rattle.masks.specs.Mask.{WellFormed};
ghost use Rattle.masks.specs.Held.{mask_at, SamePlaces};
ghost use Rattle.masks.specs.Draw.{draw_mask};
ghost use Rattle.masks.specs.Sources.{written};
ghost use Rattle.masks.specs.Promises.{draw_fault, Filled, zeroed};

use crate::mask::MaskMut;
use crate::permutations::draw_permutations;
use crate::residues::draw_residues;
use crate::source::Source;
use commitment::scheme::Scheme;
use refusals::refusal::Refusal;
use relation::Relation;

// Draws a mask for this relation and scheme, and says how many random bytes it read. A refused draw zeroes every part.
pub fn draw<R: Relation, S: Scheme>(
    relation: &R,
    scheme: &S,
    random: &[u8],
    mask: &mut MaskMut,
) -> Result<usize, Refusal>
    ensures outcome { Answered (draw_fault (R.Relation.meaning relation.now) (S.Scheme.meaning scheme.now).width (mask_at mask.old) random.now) result
        (λ count. Filled (draw_mask (R.Relation.meaning relation.now) (S.Scheme.meaning scheme.now).width random.now) random.now (mask_at mask.new) count
        × WellFormed (R.Relation.meaning relation.now) (S.Scheme.meaning scheme.now).width (mask_at mask.new))
        (mask_at mask.new ≡ zeroed (mask_at mask.old)) }
    ensures places { SamePlaces mask.old mask.new }
{
    let filled = fill(relation, scheme, random, mask);
    if filled.is_err() {
        mask.zero();
    }
    filled
}

// Fills the parts; where it refuses, some may be filled already.
fn fill<R: Relation, S: Scheme>(
    relation: &R,
    scheme: &S,
    random: &[u8],
    mask: &mut MaskMut,
) -> Result<usize, Refusal>
    ensures outcome { Answered (draw_fault (R.Relation.meaning relation.now) (S.Scheme.meaning scheme.now).width (mask_at mask.old) random.now) result
        (λ count. Filled (draw_mask (R.Relation.meaning relation.now) (S.Scheme.meaning scheme.now).width random.now) random.now (mask_at mask.new) count
        × WellFormed (R.Relation.meaning relation.now) (S.Scheme.meaning scheme.now).width (mask_at mask.new))
        (Unit {0}) }
    ensures lengths { zeroed (mask_at mask.new) ≡ zeroed (mask_at mask.old) }
    ensures places { SamePlaces mask.old mask.new }
{
    if !mask.as_mask().is_sized(relation, scheme) {
        return Err(Refusal::MaskPartLength);
    }
    let mut source = Source { left: random };
    draw_parts(relation, &mut source, mask).ok_or(Refusal::RandomBytesRunOut)?;
    Ok(source.count_read(random))
}

// Draws the parts one after another. None where the bytes run out.
fn draw_parts<R: Relation>(relation: &R, source: &mut Source, mask: &mut MaskMut) -> Option<()>
    requires permutations { length mask.old.permutations.now ≡ (R.Relation.meaning relation.now).layer_count * (R.Relation.meaning relation.now).layer_len }
    requires layers { length mask.old.layers.now ≡ (R.Relation.meaning relation.now).layer_count * (R.Relation.meaning relation.now).layer_len }
    requires free { length mask.old.free.now ≡ (R.Relation.meaning relation.now).free_len }
    ensures drawn { (width : ℕ) → length mask.old.coins.now ≡ 3 * width → draw_mask (R.Relation.meaning relation.now) width source.old.left.now ≡ written result (mask_at mask.new) source.new.left.now }
    ensures lengths { zeroed (mask_at mask.new) ≡ zeroed (mask_at mask.old) }
    ensures places { SamePlaces mask.old mask.new }
{
    let q = relation.modulus();
    draw_permutations(source, relation.layout(), mask.permutations)?;
    draw_residues(source, q, mask.layers)?;
    draw_residues(source, q, mask.free)?;
    source.copy_bytes(mask.coins)?;
    Some(())
}
