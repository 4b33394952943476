// The functions of words of 32 bits.
ghost use Rattle.std.specs.Prelude.{◌≡◌};
ghost use Rattle.sha256.specs.Words.{ch as ch_of, maj as maj_of, big_sigma as big_sigma_of, small_sigma as small_sigma_of, IsShift};

// (x & y) ^ (!x & z), in three operations
#[tactic(auto, using(crate::proofs::Bitwise::ch_is))]
pub fn ch(x: u32, y: u32, z: u32) -> u32
    ensures { result ≡ ch_of x y z }
{
    ((y ^ z) & x) ^ z
}

// (x & y) ^ (x & z) ^ (y & z), so that two rounds share an operation
#[tactic(auto, using(crate::proofs::Bitwise::maj_is))]
pub fn maj(x: u32, y: u32, z: u32) -> u32
    ensures { result ≡ maj_of x y z }
{
    y ^ ((x ^ y) & (y ^ z))
}

// Σ of FIPS 180-4: Σ0 with 2, 13 and 22, Σ1 with 6, 11 and 25.
#[tactic(auto, using(crate::proofs::Bitwise::rotated))]
pub fn big_sigma<const A: u32, const B: u32, const C: u32>(x: u32) -> u32
    requires { IsShift A × IsShift B × IsShift C }
    ensures { result ≡ big_sigma_of A B C x }
{
    x.rotate_right(A) ^ x.rotate_right(B) ^ x.rotate_right(C)
}

// σ of FIPS 180-4: σ0 with 7, 18 and 3, σ1 with 17, 19 and 10.
#[tactic(auto, using(crate::proofs::Bitwise::rotated))]
pub fn small_sigma<const A: u32, const B: u32, const C: u32>(x: u32) -> u32
    requires { IsShift A × IsShift B × IsShift C }
    ensures { result ≡ small_sigma_of A B C x }
{
    x.rotate_right(A) ^ x.rotate_right(B) ^ (x >> C)
}
