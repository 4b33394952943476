// What a case must give. Bytes and residues are given as text in hexadecimal, two digits for a byte and four for a residue.

// A case: the seed of its pseudo-random bytes, the statement's bound and target, the entries of all layers and of the free
// part, how many bytes the mask is drawn from, the commitments message, and the answers to the three challenges.
#[derive(Clone, Copy)]
pub struct Expected<'a> {
    pub seed: u32,
    pub bound: usize,
    pub target: &'a [u8],
    pub entries: usize,
    pub free: usize,
    pub bytes_read: usize,
    pub commitments: &'a [u8],
    pub first: ExpectedAnswer<'a>,
    pub second: ExpectedAnswer<'a>,
    pub third: ExpectedAnswer<'a>,
}

// An answer: its length and SHA-256 digest, the offset of its last field, the lower number of the two commitments that it opens, and
// changes that make it a wrong answer.
#[derive(Clone, Copy)]
pub struct ExpectedAnswer<'a> {
    pub length: usize,
    pub digest: &'a [u8],
    pub last_field: usize,
    pub lower_opened: usize,
    pub changes: &'a [Change],
}

// A changed answer: the offset from which four bytes are replaced, these bytes, and the number and the place of the cause that it gets.
#[derive(Clone, Copy)]
pub struct Change(pub usize, pub [u8; 4], pub u8, pub usize);

// Messages without a key: the commitments message, and the answers with their verdicts, which are the number and the place of a
// cause, or zeros for a yes.
#[derive(Clone, Copy)]
pub struct Stranger<'a> {
    pub commitments: &'a [u8],
    pub first: &'a [u8],
    pub first_verdict: (u8, usize),
    pub second: &'a [u8],
    pub second_verdict: (u8, usize),
    pub third: &'a [u8],
    pub third_verdict: (u8, usize),
}
