// Pseudo-random bytes, by a linear congruential generator that is easy to write again.
ghost use Rattle.std.specs.Prelude.{◌<◌};

use std::alloc::{AllocError, Global};

#[derive(Drop)]
pub struct Stream {
    state: u32,
}

impl Stream {
    pub fn new(seed: u32) -> Stream {
        Stream { state: seed }
    }

    fn byte(&mut self) -> u8 {
        self.state = self.state.wrapping_mul(1103515245).wrapping_add(12345) % 2147483648;
        (self.state / 65536 % 256) as u8
    }

    // Two bytes, the high byte first.
    fn word(&mut self) -> u16 {
        let high = self.byte();
        high as u16 * 256 + self.byte() as u16
    }

    pub fn bytes(&mut self, heap: Global, count: usize) -> Result<Vec<u8>, AllocError> {
        let mut bytes = Vec::new(heap);
        for _ in 0..count {
            bytes.push(self.byte())?;
        }
        Ok(bytes)
    }

    // Each is a word modulo q.
    pub fn residues(&mut self, heap: Global, count: usize, q: u16) -> Result<Vec<u16>, AllocError>
        requires { 0 < q }
    {
        let mut residues = Vec::new(heap);
        for _ in 0..count {
            residues.push(self.word() % q)?;
        }
        Ok(residues)
    }

    // A key of zeros and ones: each is a byte modulo 2.
    pub fn bits<const N: usize>(&mut self) -> [u8; N] {
        let mut bits = [0; N];
        for bit in bits.iter_mut() {
            *bit = self.byte() % 2;
        }
        bits
    }

    // A key of numbers from −32,767 to 32,767: each is a word modulo 65,535, less 32,767.
    pub fn short_key<const N: usize>(&mut self) -> [i32; N] {
        let mut key = [0; N];
        for entry in key.iter_mut() {
            *entry = (self.word() % 65535) as i32 - 32767;
        }
        key
    }
}
