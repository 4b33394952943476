// The sum of 2^j·z_j over the layers z_j, modulo q and in whole numbers.
ghost use Rattle.std.specs.Prelude.{◌≡◌, ◌+◌, ◌*◌, ◌<◌, ◌≤◌, length, ◌+ℤ◌};
ghost use Rattle.relation_laws.specs.Short.{size, combined, gathered, signed as signed_of};
ghost use Rattle.short_statement.specs.Sums.{place_sum as place_sum_of, signed_place_sum as signed_place_sum_of};

// The sum of 2^j times entry i of layer j.
fn place_sum(layers: &[u16], layer_len: usize, layer_count: usize, i: usize) -> u64
    requires { (length layers.now ≡ layer_count * layer_len) × ((layer_count ≤ 15) × (i < layer_len)) }
    ensures { result ≡ place_sum_of layer_len i layer_count layers.now }
{
    // a loop: a proof finds no bound for the total of a fold
    let mut sum: u64 = 0;
    for j in (0..layer_count).rev() {
        sum = layers[j * layer_len + i] as u64 + 2 * sum;
    }
    sum
}

// Writes the first entries of the sum modulo q, a third as many as a layer has.
pub fn combine(layers: &[u16], layer_count: usize, q: u16, out: &mut [u16])
    requires { (length layers.now ≡ layer_count * (3 * length out.old)) × ((layer_count ≤ 15) × ((length out.old ≤ 256) × (0 < q))) }
    ensures { out.new ≡ combined q (length out.old) layer_count layers.now }
{
    let layer_len = 3 * out.len();
    for (i, place) in out.iter_mut().enumerate() {
        *place = (place_sum(layers, layer_len, layer_count, i) % q as u64) as u16;
    }
}

// The residue as a whole number, with q − 1 read as −1.
fn signed(residue: u16, q: u16) -> i32
    requires { 0 < q }
    ensures { result ≡ signed_of q residue }
{
    if residue == q - 1 { -1 } else { residue as i32 }
}

fn with_doubled(number: i32, half: i32) -> i32
    requires { size number + (size half + size half) < 2147483648 }
    ensures { result ≡ number +ℤ (half +ℤ half) }
{
    number + (half + half)
}

// The same sum in whole numbers.
fn signed_place_sum(layers: &[u16], layer_len: usize, layer_count: usize, i: usize, q: u16) -> i32
    requires { (length layers.now ≡ layer_count * layer_len) × ((layer_count ≤ 15) × ((i < layer_len) × (0 < q))) }
    ensures { result ≡ signed_place_sum_of q layer_len i layer_count layers.now }
{
    // a loop: a proof finds no bound for the total of a fold
    let mut sum: i32 = 0;
    for j in (0..layer_count).rev() {
        sum = with_doubled(signed(layers[j * layer_len + i], q), sum);
    }
    sum
}

// Writes the first entries of the sum in whole numbers, a third as many as a layer has.
pub fn gather_entries(layers: &[u16], layer_count: usize, q: u16, out: &mut [i32])
    requires { (length layers.now ≡ layer_count * (3 * length out.old)) × ((layer_count ≤ 15) × ((length out.old ≤ 256) × (0 < q))) }
    ensures { out.new ≡ gathered q (length out.old) layer_count layers.now }
{
    let layer_len = 3 * out.len();
    for (i, place) in out.iter_mut().enumerate() {
        *place = signed_place_sum(layers, layer_len, layer_count, i, q);
    }
}
