// A part of a message.
ghost use Rattle.std.specs.Prelude.{◌≡◌, ◌+◌, ◌≤◌, length};
ghost use Rattle.vectors.specs.Over.{over};
ghost use Rattle.vectors.specs.Parts.{content};

use crate::encoding::write_words;
use crate::parts::copy_part;

// Bytes, or numbers of which each gives two bytes, the high byte first.
#[derive(Clone, Copy)]
pub enum Part<'a> {
    Bytes(&'a [u8]),
    Words(&'a [u16]),
}

impl Part<'_> {
    // Writes the part's bytes over `out`, from place `at` on.
    pub fn write(self, out: &mut [u8], at: usize)
        requires { at + length (content self) ≤ length out.old }
        ensures { out.new ≡ over out.old at (content self.entry) }
    {
        match self {
            Part::Bytes(bytes) => copy_part(out, at, bytes),
            Part::Words(numbers) => write_words(numbers, out, at),
        }
    }
}
