// A matrix, row by row, times a list of numbers, modulo q.
ghost use Rattle.std.specs.Prelude.{◌≡◌, ◌*◌, ◌<◌, ◌≤◌, length};
ghost use Rattle.relation_laws.specs.Products.{dot as dot_of, product};
ghost use Rattle.vectors.specs.Lists.{same};

// The sum of the products of the entries.
fn dot(left: &[u16], right: &[u16]) -> u64
    requires { length left.now ≤ 256 }
    ensures { result ≡ dot_of left.now right.now }
{
    let pairs = left.iter().zip(right);
    pairs.map(|(x, y)| u64::from(*x) * u64::from(*y)).sum()
}

// Writes one entry for each row.
pub fn multiply(matrix: &[u16], columns: usize, vector: &[u16], q: u16, out: &mut [u16])
    requires { (length matrix.now ≡ length out.old * columns) × ((length vector.now ≡ columns) × ((columns ≤ 256) × (0 < q))) }
    ensures { out.new ≡ product q columns (length out.old) matrix.now vector.now }
{
    for (i, entry) in out.iter_mut().enumerate() {
        let start = i * columns;
        let row = &matrix[start..start + columns];
        *entry = (dot(row, vector) % q as u64) as u16;
    }
}

// Says whether the product is the target, which has one entry for each row.
pub fn product_is(matrix: &[u16], columns: usize, vector: &[u16], q: u16, target: &[u16]) -> bool
    requires { (length matrix.now ≡ length target.now * columns) × ((length vector.now ≡ columns) × ((columns ≤ 256) × (0 < q))) }
    ensures { result ≡ same (product q columns (length target.now) matrix.now vector.now) target.now }
{
    for (i, entry) in target.iter().enumerate() {
        let start = i * columns;
        let row = &matrix[start..start + columns];
        if dot(row, vector) % q as u64 != *entry as u64 {
            return false;
        }
    }
    true
}
