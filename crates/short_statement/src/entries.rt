// The entries of a short key: sizes, residues, and binary digits with a sign.
ghost use Rattle.std.specs.Prelude.{◌≡◌, ◌<◌, ◌≤◌, map, length};
ghost use Rattle.relation_laws.specs.Short.{sizes_within, residue as residue_of, signed_digit, digits};

// The number of binary digits.
pub fn binary_digits(number: usize) -> usize
    requires { number ≤ 32767 }
    ensures { (result ≡ digits number) × (result ≤ 15) }
{
    (usize::BITS - number.leading_zeros()) as usize
}

// Says whether each entry is from −most to most.
pub fn all_within(key: &[i32], most: usize) -> bool
    ensures { result ≡ sizes_within most key.now }
{
    key.iter()
        .all(|number| number.unsigned_abs() as usize <= most)
}

fn residue(entry: i32, q: u16) -> u16
    requires { 0 < q }
    ensures { result ≡ residue_of q entry }
{
    entry.rem_euclid(q as i32) as u16
}

// Writes the entries modulo q.
pub fn write_residues(key: &[i32], q: u16, out: &mut [u16])
    requires { (length out.old ≡ length key.now) × (0 < q) }
    ensures { out.new ≡ map (residue_of q) key.now }
{
    for (i, entry) in key.iter().enumerate() {
        out[i] = residue(*entry, q);
    }
}

// Binary digit j of the entry's size, with the entry's sign; −1 is q − 1.
fn digit(entry: i32, j: usize, q: u16) -> u16
    requires { (j < 32) × (0 < q) }
    ensures { result ≡ signed_digit q j entry }
{
    let size = entry.unsigned_abs();
    if (size >> j) % 2 == 0 {
        0
    } else if entry < 0 {
        q - 1
    } else {
        1
    }
}

// Writes digit j of each entry.
pub fn write_digits(key: &[i32], j: usize, q: u16, out: &mut [u16])
    requires { (length out.old ≡ length key.now) × ((j < 32) × (0 < q)) }
    ensures { out.new ≡ map (signed_digit q j) key.now }
{
    for (i, entry) in key.iter().enumerate() {
        out[i] = digit(*entry, j, q);
    }
}
