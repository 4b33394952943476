// The layers of a short key, and what a layer holds.
ghost use Rattle.std.specs.Prelude.{◌≡◌, ◌*◌, ◌<◌, ◌≤◌, map, length, take};
ghost use Rattle.relation_laws.specs.Short.{thirds, filled, signed_digit, digit_layers};
ghost use Rattle.relation_laws.proofs.Counts.{Only};
ghost use Rattle.relation_laws.proofs.Thirds.{units};

use crate::entries::write_digits;
use statements::counts::count_of;
use vectors::parts::fill_part;

// Says whether 0, 1 and q − 1 stand `each` times in the layer.
pub fn has_thirds(layer: &[u16], each: usize, q: u16) -> bool
    requires { 0 < q }
    ensures { result ≡ thirds q each layer.now }
{
    count_of(layer, 0) == each && count_of(layer, 1) == each && count_of(layer, q - 1) == each
}

// Fills a layer up behind its first `each` entries, so that 0, 1 and q − 1 stand `each` times.
fn fill_up(layer: &mut [u16], each: usize, q: u16)
    requires { (length layer.old ≡ 3 * each) × ((each ≤ 256) × ((3 ≤ q) × (Only (units q) (take each layer.old)))) }
    ensures { layer.new ≡ filled q each (take each layer.old) }
{
    let minuses = each - count_of(&layer[0..each], q - 1);
    let zeros = each - count_of(&layer[0..each], 0);
    let ones = each - count_of(&layer[0..each], 1);
    fill_part(layer, each, minuses, q - 1);
    fill_part(layer, each + minuses, zeros, 0);
    fill_part(layer, each + minuses + zeros, ones, 1);
}

// Writes layer j of a key.
fn write_layer(key: &[i32], j: usize, q: u16, layer: &mut [u16])
    requires { (length layer.old ≡ 3 * length key.now) × ((length key.now ≤ 256) × ((j < 32) × (3 ≤ q))) }
    ensures { layer.new ≡ filled q (length key.now) (map (signed_digit q j) key.now) }
{
    write_digits(key, j, q, &mut layer[0..key.len()]);
    fill_up(layer, key.len(), q);
}

// Writes all layers of a key, one after another.
pub fn write_layers(key: &[i32], layer_count: usize, q: u16, layers: &mut [u16])
    requires { (length layers.old ≡ layer_count * (3 * length key.now)) × ((length key.now ≤ 256) × ((layer_count ≤ 15) × (3 ≤ q))) }
    ensures { layers.new ≡ digit_layers q (length key.now) 0 layer_count key.now }
{
    let layer_len = 3 * key.len();
    // by index: after `chunks_exact_mut` a proof knows only the slice's length
    for j in 0..layer_count {
        let start = j * layer_len;
        write_layer(key, j, q, &mut layers[start..start + layer_len]);
    }
}
