// How many bytes a message may have.
ghost use Rattle.std.specs.Prelude.{◌≡◌, ◌+◌, ◌^◌, nat_lt};
ghost use Rattle.sha256.specs.State.{fed as fed_of};

use crate::state::Sha256;

// A message has fewer than 2^64 bits.
const LIMIT: u64 = 1 << 61;

// The message would have 2^61 bytes or more.
#[derive(Clone, Copy, PartialEq, Eq, Debug)]
pub struct TooLong;

impl Sha256 {
    // The number of bytes so far.
    pub fn fed(&self) -> u64
        ensures { result ≡ fed_of self.now }
    {
        self.count
    }

    pub(crate) fn has_room(&self, more: usize) -> bool
        ensures { result ≡ nat_lt (fed_of self.now + more) (2 ^ 61) }
    {
        (more as u64) < LIMIT - self.fed()
    }
}
