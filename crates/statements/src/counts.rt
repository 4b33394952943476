// How often values stand in a list.
ghost use Rattle.std.specs.Prelude.{◌≡◌, ◌≤◌, length};
ghost use Rattle.vectors.specs.Counts.{count};
ghost use Rattle.relation_laws.specs.Products.{ones as ones_of};

pub fn count_of(values: &[u16], value: u16) -> usize
    ensures { (result ≡ count value values.now) × (result ≤ length values.now) }
{
    values.iter().map(|x| usize::from(value == *x)).sum()
}

// Says whether the list has this many ones, and zeros otherwise.
pub fn has_ones(values: &[u16], ones: usize) -> bool
    ensures { result ≡ ones_of ones values.now }
{
    count_of(values, 1) == ones && count_of(values, 0) == values.len() - ones
}
