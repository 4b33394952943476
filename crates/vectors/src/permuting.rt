// Permutations in lent slices, acting layer by layer.
ghost use Rattle.std.specs.Prelude.{◌≡◌, ◌*◌, true, length};
ghost use Rattle.vectors.specs.Permutations.{permuted};
ghost use Rattle.vectors.specs.Residues.{below};
ghost use Rattle.vectors.specs.Layers.{permuted_layers};

use crate::layout::Layout;
use std::ops::Range;

// Writes P(b) into `out`: b[P(i)] at place i.
pub fn permute(positions: &[u16], values: &[u16], out: &mut [u16])
    requires { (below (length values.now) positions.now ≡ true) × (length out.old ≡ length positions.now) }
    ensures { out.new ≡ permuted positions.now values.now }
{
    for (i, position) in positions.iter().enumerate() {
        out[i] = values[*position as usize];
    }
}

// Writes the layers into `out`, each moved by its own permutation.
pub fn permute_layers(positions: &[u16], layers: &[u16], layout: Layout, out: &mut [u16])
    requires positions { length positions.now ≡ layout.layer_count * layout.layer_len }
    requires layers { length layers.now ≡ layout.layer_count * layout.layer_len }
    requires out { length out.old ≡ layout.layer_count * layout.layer_len }
    requires within { below layout.layer_len positions.now ≡ true }
    ensures { out.new ≡ permuted_layers layout.layer_len layout.layer_count positions.now layers.now }
{
    // by the layer's number: of the chunks of `chunks_exact_mut` a proof knows only the length, and layers may be empty
    for j in 0..layout.layer_count {
        let Range { start, end } = layout.places(j);
        permute(
            &positions[start..end],
            &layers[start..end],
            &mut out[start..end],
        );
    }
}
