// Records of the log.
use messages::challenge::Challenge;

// A yes that was given: the commitments one after another, each of the scheme's width, the challenge, and where in the answer
// bytes the answer starts and how long it is.
#[derive(Clone, Copy, PartialEq, Eq, Debug)]
pub struct Record {
    pub commitments: [u8; 384],
    pub challenge: Challenge,
    pub start: usize,
    pub len: usize,
}
