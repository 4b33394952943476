// Commitments to layers that are moved by permutations.
ghost use Rattle.std.specs.Prelude.{◌≡◌, ◌+◌, ◌*◌, ◌≤◌, true, length, take, drop};
ghost use Rattle.vectors.specs.Words.{bytes};
ghost use Rattle.vectors.specs.Residues.{below};
ghost use Rattle.vectors.specs.Layers.{permuted_layers};
ghost use Rattle.vectors.specs.Parts.{content};
ghost use Rattle.vectors.specs.Permutations.{permuted};
ghost use Rattle.commitment.specs.Meaning.{Fresh, Fed};
ghost use Rattle.openings.specs.Shown.{numbers_in};

use commitment::message::feed_words;
use commitment::scheme::Scheme;
use std::ops::Range;
use vectors::encoding::read_words;
use vectors::layout::Layout;
use vectors::part::Part;
use vectors::permuting::permute;
use vectors::zeroing::ZeroOnDrop;

// Commits to the layers, each moved by its own permutation. The permutations are given as numbers or as bytes.
pub fn commit_rearranged<S: Scheme>(
    scheme: &mut S,
    coins: &[u8],
    permutations: Part,
    layers: &[u16],
    layout: Layout,
    out: &mut [u8],
)
    requires permutations { length (content permutations) ≡ 2 * (layout.layer_count * layout.layer_len) }
    requires positions { below layout.layer_len (numbers_in permutations) ≡ true }
    requires layers { length layers.now ≡ layout.layer_count * layout.layer_len }
    requires layer_len { layout.layer_len ≤ 768 }
    requires coins { length coins.now ≡ (S.Scheme.meaning scheme.old).width }
    requires out { length out.old ≡ (S.Scheme.meaning scheme.old).width }
    requires limit { 2 * (layout.layer_count * layout.layer_len) ≤ (S.Scheme.meaning scheme.old).limit }
    ensures value { out.new ≡ (S.Scheme.meaning scheme.old).value coins.now (bytes (permuted_layers layout.layer_len layout.layer_count (numbers_in permutations.entry) layers.now)) }
    ensures fresh { Fresh (S.Scheme.meaning scheme.old) (S.Scheme.state scheme.new) }
    ensures kept { S.Scheme.meaning scheme.new ≡ S.Scheme.meaning scheme.old }
{
    scheme.start(coins).unwrap();
    feed_rearranged(scheme, permutations, layers, layout);
    scheme.finish(out).unwrap();
}

fn feed_rearranged<S: Scheme>(scheme: &mut S, permutations: Part, layers: &[u16], layout: Layout)
    requires permutations { length (content permutations) ≡ 2 * (layout.layer_count * layout.layer_len) }
    requires positions { below layout.layer_len (numbers_in permutations) ≡ true }
    requires layers { length layers.now ≡ layout.layer_count * layout.layer_len }
    requires layer_len { layout.layer_len ≤ 768 }
    requires room { 2 * (layout.layer_count * layout.layer_len) ≤ (S.Scheme.state scheme.old).room }
    ensures fed { Fed (S.Scheme.state scheme.old) (bytes (permuted_layers layout.layer_len layout.layer_count (numbers_in permutations.entry) layers.now)) (S.Scheme.state scheme.new) }
    ensures kept { S.Scheme.meaning scheme.new ≡ S.Scheme.meaning scheme.old }
{
    let mut buffer = [0u16; 768];
    let guard = ZeroOnDrop { area: &mut buffer };
    let positions = &mut guard.area[0..layout.layer_len];
    // by the layer's number: its places in the layers and in the part follow from it; `chunks_exact` refuses empty layers
    for j in 0..layout.layer_count {
        let Range { start, end } = layout.places(j);
        read_numbers(permutations, start, positions);
        feed_layer(scheme, positions, &layers[start..end]);
    }
}

// Feeds one layer, moved by its permutation.
fn feed_layer<S: Scheme>(scheme: &mut S, positions: &[u16], layer: &[u16])
    requires positions { length positions.now ≡ length layer.now }
    requires within { below (length layer.now) positions.now ≡ true }
    requires layer { length layer.now ≤ 768 }
    requires room { 2 * length layer.now ≤ (S.Scheme.state scheme.old).room }
    ensures fed { Fed (S.Scheme.state scheme.old) (bytes (permuted positions.now layer.now)) (S.Scheme.state scheme.new) }
    ensures kept { S.Scheme.meaning scheme.new ≡ S.Scheme.meaning scheme.old }
{
    let mut buffer = [0u16; 768];
    let guard = ZeroOnDrop { area: &mut buffer };
    let moved = &mut guard.area[0..layer.len()];
    permute(positions, layer, moved);
    feed_words(scheme, moved).unwrap();
}

// Fills `out` with the numbers of a part, from number `from` on.
fn read_numbers(part: Part, from: usize, out: &mut [u16])
    requires { 2 * (from + length out.old) ≤ length (content part) }
    ensures { out.new ≡ take (length out.old) (drop from (numbers_in part.entry)) }
{
    match part {
        Part::Bytes(bytes) => read_words(&bytes[2 * from..2 * (from + out.len())], out),
        Part::Words(words) => out.copy_from_slice(&words[from..from + out.len()]),
    }
}
