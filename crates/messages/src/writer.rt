// Writing messages at the start of a lent output; the bytes behind stay.
ghost use Rattle.std.specs.Prelude.{◌≡◌, ◌+◌, ◌*◌, ◌/◌, ◌%◌, ◌<◌, ◌≤◌, true, [], ◌∷◌, length, slice_index, slice_set};
ghost use Rattle.refusals.specs.Answers.{Answered};
ghost use Rattle.vectors.specs.Words.{bytes};
ghost use Rattle.vectors.specs.Over.{over};
ghost use Rattle.vectors.specs.Parts.{content};
ghost use Rattle.vectors.specs.Permutations.{permuted};
ghost use Rattle.vectors.specs.Layers.{permuted_layers};
ghost use Rattle.vectors.specs.Residues.{below};
ghost use Rattle.messages.specs.Fields.{field};
ghost use Rattle.messages.specs.Contents.{to_first, to_second, to_third, answer_written, commitments_written};
ghost use Rattle.messages.specs.Writing.{three_fit, commitments_fault, long_written, LongFits, Wrote};

use crate::fields::Triple;
use refusals::refusal::Refusal;
use std::ops::Range;
use vectors::encoding::write_words;
use vectors::layout::Layout;
use vectors::part::Part;

// Writes the head of a field: its tag, and the length of its content with the high byte first.
fn write_head(out: &mut [u8], at: usize, tag: u8, size: usize)
    requires { (at + 3 ≤ length out.old) × (size < 65536) }
    ensures { out.new ≡ slice_set (slice_set (slice_set out.old at tag) (at + 1) (size / 256)) (at + 2) (size % 256) }
{
    let [high, low] = (size as u16).to_be_bytes();
    out[at] = tag;
    out[at + 1] = high;
    out[at + 2] = low;
}

// The length of a part in bytes.
#[tactic(auto, using(vectors::proofs::Words::length_bytes))]
fn content_len(part: Part) -> usize
    ensures { result ≡ length (content part.entry) }
{
    match part {
        Part::Bytes(bytes) => bytes.len(),
        Part::Words(numbers) => 2 * numbers.len(),
    }
}

// Writes a field from place `at` on, and says where it ends.
pub fn write_field(out: &mut [u8], at: usize, tag: u8, part: Part) -> usize
    requires { (at + 3 + length (content part) ≤ length out.old) × (length (content part) < 65536) }
    ensures value { result ≡ at + 3 + length (content part.entry) }
    ensures after { out.new ≡ over out.old at (field tag (content part.entry)) }
{
    let size = content_len(part);
    write_head(out, at, tag, size);
    part.write(out, at + 3);
    at + 3 + size
}

// Writes the value at a position, as two bytes.
fn write_value(out: &mut [u8], at: usize, position: u16, values: &[u16])
    requires { (at + 2 ≤ length out.old) × (position < length values.now) }
    ensures { out.new ≡ over out.old at (bytes (slice_index values.now position ∷ [])) }
{
    let value = values[position as usize];
    write_words(&[value], out, at);
}

// Writes the values in the order that the positions give, from place `at` on.
fn write_permuted(out: &mut [u8], at: usize, positions: &[u16], values: &[u16])
    requires { (at + 2 * length positions.now ≤ length out.old) × (below (length values.now) positions.now ≡ true) }
    ensures { out.new ≡ over out.old at (bytes (permuted positions.now values.now)) }
{
    for (i, position) in positions.iter().enumerate() {
        write_value(out, at + 2 * i, *position, values);
    }
}

// Writes a field of layers, each moved by its own permutation.
pub fn write_permuted_field(
    out: &mut [u8],
    at: usize,
    tag: u8,
    positions: &[u16],
    layers: &[u16],
    layout: Layout,
) -> usize
    requires room { (at + 3 + 2 * length positions.now ≤ length out.old) × (2 * length positions.now < 65536) }
    requires whole { (length positions.now ≡ layout.layer_count * layout.layer_len) × ((length layers.now ≡ layout.layer_count * layout.layer_len) × (below layout.layer_len positions.now ≡ true)) }
    ensures value { result ≡ at + 3 + 2 * length positions.now }
    ensures after { out.new ≡ over out.old at (field tag (bytes (permuted_layers layout.layer_len layout.layer_count positions.now layers.now))) }
{
    write_head(out, at, tag, 2 * positions.len());
    // by the layer's number: its places in both lists and in the output follow from it; `chunks_exact` refuses empty layers
    for j in 0..layout.layer_count {
        let Range { start, end } = layout.places(j);
        write_permuted(
            out,
            at + 3 + 2 * start,
            &positions[start..end],
            &layers[start..end],
        );
    }
    at + 3 + 2 * positions.len()
}

// Says whether fields with these contents can be written into so much room: two bytes hold each length.
fn three_fit(room: usize, commitments: Triple) -> bool
    ensures { result ≡ three_fit room (length commitments.entry.one.now) (length commitments.entry.two.now) (length commitments.entry.three.now) }
{
    let one = commitments.one.len();
    let two = commitments.two.len();
    let three = commitments.three.len();
    [one, two, three].iter().all(|length| *length <= 65535) && 9 + one + two + three <= room
}

// Writes a commitments message, and says how long it is.
pub fn write_commitments(out: &mut [u8], commitments: Triple) -> Result<usize, Refusal>
    ensures { Answered (commitments_fault (length out.old) commitments.entry.one.now commitments.entry.two.now commitments.entry.three.now) result (λ n. Wrote out.old (commitments_written commitments.entry.one.now commitments.entry.two.now commitments.entry.three.now) out.new n) (out.new ≡ out.old) }
{
    if !three_fit(out.len(), commitments) {
        return Err(Refusal::RoomShort);
    }
    let second_at = write_field(out, 0, 1, Part::Bytes(commitments.one));
    let third_at = write_field(out, second_at, 2, Part::Bytes(commitments.two));
    let end = write_field(out, third_at, 3, Part::Bytes(commitments.three));
    Ok(end)
}

// Writes the answer to challenge 1 from the mask's permutations, the key's layers and the mask's layers, and says how long it is.
pub fn write_first(
    out: &mut [u8],
    positions: &[u16],
    key_layers: &[u16],
    mask_layers: &[u16],
    layout: Layout,
    coins_2: &[u8],
    coins_3: &[u8],
) -> usize
    requires room { 12 + 4 * length positions.now + length coins_2.now + length coins_3.now ≤ length out.old }
    requires short { (2 * length positions.now < 65536) × ((length coins_2.now < 65536) × (length coins_3.now < 65536)) }
    requires whole { (length positions.now ≡ layout.layer_count * layout.layer_len) × ((length key_layers.now ≡ layout.layer_count * layout.layer_len) × ((length mask_layers.now ≡ layout.layer_count * layout.layer_len) × (below layout.layer_len positions.now ≡ true))) }
    ensures { Wrote out.old (answer_written (to_first (permuted_layers layout.layer_len layout.layer_count positions.now key_layers.now) (permuted_layers layout.layer_len layout.layer_count positions.now mask_layers.now) coins_2.now coins_3.now)) out.new result }
{
    let mask_at = write_permuted_field(out, 0, 11, positions, key_layers, layout);
    let coins_2_at = write_permuted_field(out, mask_at, 12, positions, mask_layers, layout);
    let coins_3_at = write_field(out, coins_2_at, 13, Part::Bytes(coins_2));
    write_field(out, coins_3_at, 14, Part::Bytes(coins_3))
}

// Writes the answer to challenge 2 or 3, by the tag of its first field.
#[tactic(auto, using(vectors::proofs::Words::length_bytes))]
fn write_long(
    out: &mut [u8],
    tag: u8,
    permutations: &[u16],
    layers: &[u16],
    free: &[u16],
    lower: &[u8],
    upper: &[u8],
) -> usize
    requires { (tag + 4 < 256) × (LongFits (length out.old) permutations.now layers.now free.now lower.now upper.now) }
    ensures { Wrote out.old (long_written tag permutations.now layers.now free.now lower.now upper.now) out.new result }
{
    let layers_at = write_field(out, 0, tag, Part::Words(permutations));
    let free_at = write_field(out, layers_at, tag + 1, Part::Words(layers));
    let lower_at = write_field(out, free_at, tag + 2, Part::Words(free));
    let upper_at = write_field(out, lower_at, tag + 3, Part::Bytes(lower));
    write_field(out, upper_at, tag + 4, Part::Bytes(upper))
}

// Writes the answer to challenge 2, and says how long it is.
pub fn write_second(
    out: &mut [u8],
    permutations: &[u16],
    masked_key: &[u16],
    masked_free: &[u16],
    coins_1: &[u8],
    coins_3: &[u8],
) -> usize
    requires { LongFits (length out.old) permutations.now masked_key.now masked_free.now coins_1.now coins_3.now }
    ensures { Wrote out.old (answer_written (to_second permutations.now masked_key.now masked_free.now coins_1.now coins_3.now)) out.new result }
{
    write_long(
        out,
        21,
        permutations,
        masked_key,
        masked_free,
        coins_1,
        coins_3,
    )
}

// Writes the answer to challenge 3, and says how long it is.
pub fn write_third(
    out: &mut [u8],
    permutations: &[u16],
    mask: &[u16],
    free: &[u16],
    coins_1: &[u8],
    coins_2: &[u8],
) -> usize
    requires { LongFits (length out.old) permutations.now mask.now free.now coins_1.now coins_2.now }
    ensures { Wrote out.old (answer_written (to_third permutations.now mask.now free.now coins_1.now coins_2.now)) out.new result }
{
    write_long(out, 31, permutations, mask, free, coins_1, coins_2)
}
