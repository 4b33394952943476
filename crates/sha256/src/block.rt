// The hash value after one block of 64 bytes.
ghost use Rattle.std.specs.Prelude.{◌≡◌};
ghost use Rattle.sha256.specs.Block.{compressed};

use crate::constants::ROUNDS;
use crate::round::{Working, added, sixteen_rounds};
use crate::schedule::{follow, words_of};

pub fn compress(hash: [u32; 8], block: &[u8; 64]) -> [u32; 8]
    ensures { result ≡ compressed hash block.now }
{
    let mut words = words_of(block);
    let mut v = Working::from(hash);
    for (group, constants) in ROUNDS.iter().enumerate() {
        v = sixteen_rounds(v, constants, &words);
        if group < 3 {
            follow(&mut words);
        }
    }
    added(hash, v)
}
