// A statement as the caller gives it, not checked yet.
ghost use Rattle.std.specs.Prelude.{◌≡◌, [], ◌∷◌};
ghost use Rattle.statements.specs.Given.{statement};

// A matrix, row by row, and a target, both lent, with the numbers of one kind of statement.
#[derive(Clone, Copy)]
pub struct Given<'a> {
    pub modulus: usize,
    pub rows: usize,
    pub columns: usize,
    // the number of ones (weight, noise), or the largest size of an entry (short)
    pub bound: usize,
    pub matrix: &'a [u16],
    pub target: &'a [u16],
}

impl<'a> Given<'a> {
    // The smallest statement of a kind with this modulus.
    pub fn smallest(modulus: usize) -> Given<'a>
        ensures { statement result ≡ record { q = modulus; rows = 1; columns = 1; bound = 1; matrix = 0 ∷ []; target = 0 ∷ [] } }
    {
        Given {
            modulus,
            rows: 1,
            columns: 1,
            bound: 1,
            matrix: &[0],
            target: &[0],
        }
    }
}
