// Zeros and ones as bytes and as numbers of 16 bits.
ghost use Rattle.std.specs.Prelude.{◌≡◌, true, length};
ghost use Rattle.vectors.specs.Residues.{below};

// Writes the bytes as numbers.
pub fn widen(bytes: &[u8], numbers: &mut [u16])
    requires { length bytes.now ≡ length numbers.old }
    ensures { numbers.new ≡ bytes.now }
{
    for (i, byte) in bytes.iter().enumerate() {
        numbers[i] = u16::from(*byte);
    }
}

// Writes zeros and ones as bytes.
pub fn narrow(numbers: &[u16], bytes: &mut [u8])
    requires { (length numbers.now ≡ length bytes.old) × (below 2 numbers.now ≡ true) }
    ensures { bytes.new ≡ numbers.now }
{
    for (i, number) in numbers.iter().enumerate() {
        bytes[i] = *number as u8;
    }
}
