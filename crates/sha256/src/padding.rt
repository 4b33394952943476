// The parts of the padding of a message, from the number of its bytes.
ghost use Rattle.std.specs.Prelude.{◌≡◌, ◌*◌, ◌^◌, ◌<◌, ◌∷◌, replicate};
ghost use Rattle.sha256.specs.Hash.{zeros as zeros_of, length_bytes};

// How many bytes are 0 between the first byte and the length.
pub fn zeros(count: u64) -> usize
    ensures { result ≡ zeros_of count }
{
    ((119 - count % 64) % 64) as usize
}

// The first byte, and room for the longest padding.
pub fn first_byte() -> [u8; 72]
    ensures { result ≡ 128 ∷ replicate 71 0 }
{
    let mut bytes = [0; 72];
    bytes[0] = 128;
    bytes
}

pub fn length_in_bits(count: u64) -> [u8; 8]
    requires { count < 2 ^ 61 }
    ensures { result ≡ length_bytes (8 * count) }
{
    (8 * count).to_be_bytes()
}
