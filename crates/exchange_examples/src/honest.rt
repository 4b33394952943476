// An honest console: two statements with a key and a mask of each, and the messages that it writes for them.
use console_moves::answering::answer;
use console_moves::committing::commit;
use noise_statement::noise::Noise;
use refusals::refusal::Refusal;
use relation::Relation;
use schemes::hash::Hash;
use short_statement::short::Short;
use statements::given::Given;

#[derive(Clone, Copy)]
pub struct Mask {
    permutations: &'static [u16],
    layers: &'static [u16],
    free: &'static [u16],
    coins: [u8; 96],
}

impl Mask {
    fn parts(&self) -> masks::mask::Mask<'_> {
        masks::mask::Mask {
            permutations: self.permutations,
            layers: self.layers,
            free: self.free,
            coins: &self.coins,
        }
    }
}

// Three layers of six entries, and no free part. The answers take 148, 151 and 151 bytes.
pub fn short() -> Result<Short<'static>, Refusal> {
    Short::new(Given {
        modulus: 11,
        rows: 1,
        columns: 2,
        bound: 5,
        matrix: &[1, 2],
        target: &[10],
    })
}

pub const SHORT_KEY: [i32; 2] = [5, -3];

pub fn short_mask() -> Mask {
    Mask {
        permutations: &[1, 2, 3, 4, 5, 0, 5, 4, 3, 2, 1, 0, 0, 2, 4, 1, 3, 5],
        layers: &[1, 2, 3, 4, 5, 6, 7, 8, 9, 10, 0, 1, 2, 3, 4, 5, 6, 7],
        free: &[],
        coins: random_bytes(1),
    }
}

// One layer of four entries, and a free part of two. The answers take 92, 99 and 99 bytes.
pub fn noise() -> Result<Noise<'static>, Refusal> {
    Noise::new(Given {
        modulus: 2,
        rows: 4,
        columns: 2,
        bound: 1,
        matrix: &[1, 0, 0, 1, 1, 1, 1, 0],
        target: &[1, 1, 1, 1],
    })
}

pub const NOISE_KEY: [u8; 2] = [1, 1];

pub fn noise_mask() -> Mask {
    Mask {
        permutations: &[1, 2, 3, 0],
        layers: &[1, 0, 1, 1],
        free: &[0, 1],
        coins: random_bytes(2),
    }
}

// Bytes that look random, from a seed.
pub fn random_bytes<const N: usize>(seed: u32) -> [u8; N] {
    let mut bytes = [0; N];
    let mut state = seed;
    for byte in bytes.iter_mut() {
        state = state.wrapping_mul(1664525).wrapping_add(1013904223);
        *byte = (state >> 24) as u8;
    }
    bytes
}

// A message at the start of a buffer.
#[derive(Clone, Copy)]
pub struct Message {
    pub bytes: [u8; 152],
    pub len: usize,
}

impl Message {
    pub fn content(&self) -> &[u8] {
        &self.bytes[0..self.len.min(152)]
    }
}

// The commitments message, and the answers to challenges 1 to 3.
pub fn messages<R: Relation>(
    relation: &R,
    key: &[R::Entry],
    mask: &Mask,
) -> Result<[Message; 4], Refusal> {
    Ok([
        commitments(relation, key, mask)?,
        answer_to(relation, key, mask, 1)?,
        answer_to(relation, key, mask, 2)?,
        answer_to(relation, key, mask, 3)?,
    ])
}

fn commitments<R: Relation>(
    relation: &R,
    key: &[R::Entry],
    mask: &Mask,
) -> Result<Message, Refusal> {
    let mut scheme = Hash::new();
    let mut work = [0; 18];
    let mut bytes = [0; 152];
    let len = commit(
        relation,
        &mut scheme,
        key,
        mask.parts(),
        &mut work,
        &mut bytes,
    )?;
    Ok(Message { bytes, len })
}

fn answer_to<R: Relation>(
    relation: &R,
    key: &[R::Entry],
    mask: &Mask,
    challenge: u8,
) -> Result<Message, Refusal> {
    let scheme = Hash::new();
    let mut work = [0; 18];
    let mut bytes = [0; 152];
    let len = answer(
        relation,
        &scheme,
        key,
        mask.parts(),
        challenge,
        &mut work,
        &mut bytes,
    )?;
    Ok(Message { bytes, len })
}
