// Whether layers have their shapes.
ghost use Rattle.std.specs.Prelude.{◌≡◌};
ghost use Rattle.vectors.specs.Layers.{first_failing};
ghost use Rattle.relation.specs.Meaning.{Layers};

use relation::Relation;
use std::ops::Range;

// The first layer, from 0, that lacks its shape.
pub fn first_misshapen<R: Relation>(relation: &R, layers: &[u16]) -> Option<usize>
    requires { Layers (R.Relation.meaning relation.now) layers.now }
    ensures { result ≡ first_failing (R.Relation.meaning relation.now).shape (R.Relation.meaning relation.now).layer_len 0 (R.Relation.meaning relation.now).layer_count layers.now }
{
    let layout = relation.layout();
    // by the layer's number, which shape asks for and which is given back
    for layer in 0..layout.layer_count {
        let Range { start, end } = layout.places(layer);
        if !relation.shape(layer, &layers[start..end]).unwrap() {
            return Some(layer);
        }
    }
    None
}
