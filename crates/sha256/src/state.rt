// What a hasher holds of the bytes so far.
ghost use Rattle.std.specs.Prelude.{◌≡◌, ◌%◌, ◌^◌, ◌<◌, length};

// The hash value after the whole blocks, and the first bytes of the block that is not yet whole.
#[derive(Clone, Copy)]
pub struct Blocks {
    pub(crate) hash: [u32; 8],
    pub(crate) held: [u8; 64],
    pub(crate) filled: usize,
    ghost sizes: { (length hash ≡ 8) × (length held ≡ 64) × (filled < 64) },
}

// The SHA-256 digest of bytes that come piece by piece.
#[derive(Clone, Copy)]
pub struct Sha256 {
    pub(crate) running: Blocks,
    pub(crate) count: u64,
    ghost few: { count < 2 ^ 61 },
    ghost rest: { running.filled ≡ count % 64 },
}
