// Checks on a read answer that need no commitment: residues below the modulus, and lists of positions that are permutations.
#![tactic(auto)]

ghost use Rattle.std.specs.Prelude.{◌≡◌, ◌+◌, ◌*◌, ◌^◌, ◌<◌, ◌≤◌, length, Some, None, MatchResult};
ghost use Rattle.vectors.specs.Words.{words};
ghost use Rattle.messages.specs.Checks.{first_above, first_unpermuted, or_else, field_above, answer_above, answer_unpermuted, answer_cause};
ghost use Rattle.answer_checks.specs.Bounds.{Placeable, ResiduesPlaceable, PositionsSized};

use messages::fields::{Answer, Field};
use refusals::cause::Cause;
use std::ops::Range;
use vectors::encoding::read_words;
use vectors::layout::Layout;
use vectors::testing::is_permutation;

// The offset of the first number of a content, two bytes each, that is not below q; the content begins at `offset`.
pub fn first_above(content: &[u8], q: u16, offset: usize) -> Option<usize>
    requires { offset + length content.now < 2 ^ 64 }
    ensures { result ≡ first_above q offset (words content.now) }
{
    let (pairs, _) = content.as_chunks::<2>();
    pairs
        .iter()
        .position(|pair| u16::from_be_bytes(*pair) >= q)
        .map(|place| offset + 2 * place)
}

// The first layer, from 0, whose positions are no permutation.
pub fn first_unpermuted(content: &[u8], layout: Layout) -> Option<usize>
    requires { (length content.now ≡ 2 * (layout.layer_count * layout.layer_len)) × (layout.layer_len ≤ 768) }
    ensures { result ≡ first_unpermuted layout.layer_len layout.layer_count (words content.now) }
{
    let mut memory = [0; 768];
    let positions = &mut memory[..layout.layer_len];
    // by the layer's number, which is what is given back; `chunks_exact` refuses empty layers
    for layer in 0..layout.layer_count {
        let Range { start, end } = layout.places(layer);
        read_words(&content[2 * start..2 * end], positions);
        if !is_permutation(positions) {
            return Some(layer);
        }
    }
    None
}

// The offset of the first number of a field that is not below q.
fn field_above(field: Field, q: u16) -> Option<usize>
    requires { Placeable field }
    ensures { result ≡ field_above q field.entry }
{
    first_above(field.content, q, field.offset + 3)
}

// The offset of the first number of two fields that is not below q.
fn fields_above(one: Field, two: Field, q: u16) -> Option<usize>
    requires { (Placeable one) × (Placeable two) }
    ensures { result ≡ or_else (field_above q one.entry) (field_above q two.entry) }
{
    // by `if let`, so that the second field is looked at only where the first has none: a proof does not learn what a closure under
    // `or_else` returns here
    if let Some(offset) = field_above(one, q) {
        return Some(offset);
    }
    field_above(two, q)
}

// The offset of the first residue of an answer that is not below q.
fn answer_above(answer: &Answer, q: u16) -> Option<usize>
    requires { ResiduesPlaceable answer.now }
    ensures { result ≡ answer_above q answer.now }
{
    match *answer {
        Answer::First {
            permuted_key,
            permuted_mask,
            ..
        } => fields_above(permuted_key, permuted_mask, q),
        Answer::Second {
            masked_key,
            masked_free,
            ..
        } => fields_above(masked_key, masked_free, q),
        Answer::Third { mask, free, .. } => fields_above(mask, free, q),
    }
}

// The first layer of an answer's positions, from 0, that is no permutation.
fn answer_unpermuted(answer: &Answer, layout: Layout) -> Option<usize>
    requires { (PositionsSized layout.layer_len layout.layer_count answer.now) × (layout.layer_len ≤ 768) }
    ensures { result ≡ answer_unpermuted layout.layer_len layout.layer_count answer.now }
{
    match *answer {
        Answer::First { .. } => None,
        Answer::Second { permutations, .. } | Answer::Third { permutations, .. } =>
            first_unpermuted(permutations.content, layout),
    }
}

// Says no by the first cause that an answer gives without the commitments: a residue that is not below q, then a list that is no permutation.
pub fn check_answer(answer: &Answer, q: u16, layout: Layout) -> Result<(), Cause>
    requires { (ResiduesPlaceable answer.now) × ((PositionsSized layout.layer_len layout.layer_count answer.now) × (layout.layer_len ≤ 768)) }
    ensures { MatchResult result (λ _. answer_cause q layout.layer_len layout.layer_count answer.now ≡ None) (λ cause. answer_cause q layout.layer_len layout.layer_count answer.now ≡ Some cause) }
{
    if let Some(offset) = answer_above(answer, q) {
        return Err(Cause::ResidueNotBelowModulus { offset });
    }
    if let Some(layer) = answer_unpermuted(answer, layout) {
        return Err(Cause::NoPermutation { layer });
    }
    Ok(())
}
