// Lists of residues modulo q in lent slices: testing, adding and subtracting.
ghost use Rattle.std.specs.Prelude.{◌≡◌, ◌+◌, ◌-◌, ◌%◌, ◌<◌, ◌≤◌, true, length};
ghost use Rattle.vectors.specs.Residues.{below, plus, minus};

// Says whether each value is below `bound`.
pub fn all_below(values: &[u16], bound: usize) -> bool
    ensures { result ≡ below bound values.now }
{
    values.iter().all(|value| (*value as usize) < bound)
}

// Adds `other` to `sum`, entry by entry modulo q.
pub fn add(sum: &mut [u16], other: &[u16], q: u16)
    requires { (length sum.old ≡ length other.now) × ((below q sum.old ≡ true) × (below q other.now ≡ true)) }
    ensures { sum.new ≡ plus q sum.old other.now }
{
    // written by place: of entries written through a zip of iter_mut a proof learns nothing
    for (i, y) in other.iter().enumerate() {
        sum[i] = sum_below(sum[i], *y, q);
    }
}

// Subtracts `other` from `difference`, entry by entry modulo q.
pub fn subtract(difference: &mut [u16], other: &[u16], q: u16)
    requires { (length difference.old ≡ length other.now) × ((below q difference.old ≡ true) × (below q other.now ≡ true)) }
    ensures { difference.new ≡ minus q difference.old other.now }
{
    for (i, y) in other.iter().enumerate() {
        difference[i] = difference_below(difference[i], *y, q);
    }
}

fn sum_below(x: u16, y: u16, q: u16) -> u16
    requires { (x < q) × (y < q) }
    ensures { result ≡ (x + y) % q }
{
    reduced(x as u32 + y as u32, q)
}

fn difference_below(x: u16, y: u16, q: u16) -> u16
    requires { (x < q) × (y < q) }
    ensures { result ≡ (x + (q - y)) % q }
{
    reduced(x as u32 + (q - y) as u32, q)
}

// Takes q off once, where the number reaches it.
fn reduced(number: u32, q: u16) -> u16
    requires { number < q + q }
    ensures { (number < q → result ≡ number) × (q ≤ number → result ≡ number - q) }
{
    let q = q as u32;
    if number >= q {
        (number - q) as u16
    } else {
        number as u16
    }
}
