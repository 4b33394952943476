// Bytes cut into blocks: whole ones are compressed, and the rest is held.
ghost use Rattle.std.specs.Prelude.{◌≡◌, ◌+◌, ◌^◌, ◌<◌, ◌≤◌, length};
ghost use Rattle.sha256.specs.Hash.{initial, padding as padding_of};
ghost use Rattle.sha256.specs.State.{Absorbed};

use crate::block::compress;
use crate::constants::INITIAL;
use crate::padding::{first_byte, length_in_bits, zeros};
use crate::state::Blocks;

impl Blocks {
    pub fn start() -> Blocks
        ensures hash { result.hash ≡ initial }
        ensures filled { result.filled ≡ 0 }
    {
        Blocks {
            hash: INITIAL,
            held: [0; 64],
            filled: 0,
        }
    }

    // Bytes that lie in one block.
    fn hold(&mut self, bytes: &[u8])
        requires { self.old.filled + length bytes.now ≤ 64 }
        ensures { Absorbed self.old bytes.now self.new }
    {
        let end = self.filled + bytes.len();
        self.held[self.filled..end].copy_from_slice(bytes);
        if end == 64 {
            self.hash = compress(self.hash, &self.held);
            self.filled = 0;
        } else {
            self.filled = end;
        }
    }

    // Whole blocks are compressed where they lie.
    pub fn absorb(&mut self, bytes: &[u8])
        ensures { Absorbed self.old bytes.now self.new }
    {
        let (head, rest) = bytes.split_at(bytes.len().min((64 - self.filled) % 64));
        self.hold(head);
        let (blocks, tail) = rest.as_chunks::<64>();
        self.hash = blocks.iter().fold(self.hash, compress);
        self.hold(tail);
    }

    // The padding of a message of so many bytes.
    pub fn pad(&mut self, count: u64)
        requires { count < 2 ^ 61 }
        ensures { Absorbed self.old (padding_of count) self.new }
    {
        let zeros = zeros(count);
        let mut padding = first_byte();
        padding[zeros + 1..zeros + 9].copy_from_slice(&length_in_bits(count));
        self.absorb(&padding[..zeros + 9]);
    }
}
