// Adding numbers that are given as two bytes each, the high byte first.
ghost use Rattle.std.specs.Prelude.{◌≡◌, ◌*◌, ◌≤◌, true, length};
ghost use Rattle.vectors.specs.Words.{words};
ghost use Rattle.vectors.specs.Residues.{below, plus};

use vectors::encoding::read_words;
use vectors::modular::add;

// Adds the numbers that the bytes hold to `sum`, entry by entry modulo q.
pub fn add_words(sum: &mut [u16], bytes: &[u8], q: u16)
    requires lengths { length bytes.now ≡ 2 * length sum.old }
    requires sum { below q sum.old ≡ true }
    requires numbers { below q (words bytes.now) ≡ true }
    ensures { sum.new ≡ plus q sum.old (words bytes.now) }
{
    for (i, piece) in bytes.chunks(128).enumerate() {
        let from = 64 * i;
        add_piece(&mut sum[from..from + piece.len() / 2], piece, q);
    }
}

// Adds the numbers that the bytes hold, where they are few enough for a local buffer.
fn add_piece(sum: &mut [u16], bytes: &[u8], q: u16)
    requires lengths { length bytes.now ≡ 2 * length sum.old }
    requires few { length sum.old ≤ 64 }
    requires sum { below q sum.old ≡ true }
    requires numbers { below q (words bytes.now) ≡ true }
    ensures { sum.new ≡ plus q sum.old (words bytes.now) }
{
    let mut buffer = [0u16; 64];
    let numbers = &mut buffer[0..sum.len()];
    read_words(bytes, numbers);
    add(sum, numbers, q);
}
