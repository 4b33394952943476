// The schedule of a block, sixteen words at a time.
ghost use Rattle.std.specs.Prelude.{◌≡◌, length, slice_index};
ghost use Rattle.sha256.specs.Block.{words, next_word, slid};

use crate::word::small_sigma;
use std::array;

pub fn words_of(block: &[u8; 64]) -> [u32; 16]
    ensures { result ≡ words block.now }
{
    let (words, _) = block.as_chunks::<4>();
    array::from_fn(|i| u32::from_be_bytes(words[i]))
}

// The word after sixteen.
fn next_word(w: &[u32; 16]) -> u32
    ensures { result ≡ next_word (slice_index w.now 14) (slice_index w.now 9) (slice_index w.now 1) (slice_index w.now 0) }
{
    small_sigma::<17, 19, 10>(w[14])
        .wrapping_add(w[9])
        .wrapping_add(small_sigma::<7, 18, 3>(w[1]))
        .wrapping_add(w[0])
}

// The sixteen words that begin one word later.
#[tactic(auto, using(crate::proofs::Windows::slid_is))]
fn slide(w: &mut [u32; 16])
    ensures { w.new ≡ slid 1 w.old }
{
    let next = next_word(w);
    // `rotate_left` would move the words in memory, and the digest would take 1.7 times as long.
    *w = [
        w[1], w[2], w[3], w[4], w[5], w[6], w[7], w[8], w[9], w[10], w[11], w[12], w[13], w[14],
        w[15], next,
    ];
}

// The sixteen words that begin sixteen words later.
pub fn follow(w: &mut [u32; 16])
    ensures { w.new ≡ slid 16 w.old }
{
    // a loop: of a closure that gives an array nothing is inferred in a fold
    for _ in 0..16usize {
        slide(w);
    }
}
