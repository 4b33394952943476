// Numbers of 16 bits written as two bytes each, the high byte first.
ghost use Rattle.std.specs.Prelude.{◌≡◌, ◌+◌, ◌*◌, ◌/◌, ◌%◌, ◌<◌, ◌≤◌, length, slice_set};
ghost use Rattle.vectors.specs.Words.{bytes, words};
ghost use Rattle.vectors.specs.Over.{over};

// Writes the numbers over `out`, from place `at` on.
pub fn write_words(numbers: &[u16], out: &mut [u8], at: usize)
    requires { at + 2 * length numbers.now ≤ length out.old }
    ensures { out.new ≡ over out.old at (bytes numbers.now) }
{
    for (i, number) in numbers.iter().enumerate() {
        write_word(*number, out, at + 2 * i);
    }
}

// Writes one number over `out`, at place `at`.
fn write_word(number: u16, out: &mut [u8], at: usize)
    requires { at + 1 < length out.old }
    ensures { out.new ≡ slice_set (slice_set out.old at (number / 256)) (at + 1) (number % 256) }
{
    let [high, low] = number.to_be_bytes();
    out[at] = high;
    out[at + 1] = low;
}

// Writes the numbers that the bytes hold into `out`.
pub fn read_words(bytes: &[u8], out: &mut [u16])
    requires { length bytes.now ≡ 2 * length out.old }
    ensures { out.new ≡ words bytes.now }
{
    let (pairs, _) = bytes.as_chunks::<2>();
    for (i, pair) in pairs.iter().enumerate() {
        out[i] = u16::from_be_bytes(*pair);
    }
}
