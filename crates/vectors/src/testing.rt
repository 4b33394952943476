// Testing lists of positions in lent slices: each must be a permutation.
ghost use Rattle.std.specs.Prelude.{◌≡◌, ◌*◌, ◌≤◌, length};
ghost use Rattle.vectors.specs.Permutations.{permutes};
ghost use Rattle.vectors.specs.Layers.{first_failing};

use crate::layout::Layout;
use std::ops::Range;

// Says whether the positions are each of 0 to N - 1 once, where N is their number.
pub fn is_permutation(positions: &[u16]) -> bool
    requires { length positions.now ≤ 768 }
    ensures { result ≡ permutes (length positions.now) positions.now }
{
    let mut seen = [false; 768];
    for position in positions {
        let place = *position as usize;
        if place >= positions.len() || seen[place] {
            return false;
        }
        seen[place] = true;
    }
    true
}

// The first layer, counted from 0, that is no permutation.
pub fn first_unpermuted(positions: &[u16], layout: Layout) -> Option<usize>
    requires { (length positions.now ≡ layout.layer_count * layout.layer_len) × (layout.layer_len ≤ 768) }
    ensures { result ≡ first_failing (λ j. permutes layout.layer_len) layout.layer_len 0 layout.layer_count positions.now }
{
    // by the layer's number, which is what is given back; `chunks_exact` refuses empty layers
    for j in 0..layout.layer_count {
        let Range { start, end } = layout.places(j);
        if !is_permutation(&positions[start..end]) {
            return Some(j);
        }
    }
    None
}
