// Masks of the largest sizes, and of the longest free part: drawn from fixed bytes that look random, and checked.
use crate::widest::Widest;
use masks::draw::draw;
use masks::mask::{Mask, MaskMut};
use noise_statement::noise::Noise;
use refusals::refusal::Refusal;
use relation::Relation;
use short_statement::short::Short;
use statements::given::Given;
use std::test::Fail;

static ONES: [u16; 256] = [1; 256];

// 15 layers of 768 entries, and no free part.
fn most_layers() -> Result<Short<'static>, Refusal> {
    Short::new(Given {
        modulus: 65535,
        rows: 1,
        columns: 256,
        bound: 32767,
        matrix: &ONES,
        target: &[0],
    })
}

// One layer of one entry, and a free part of 256 entries.
fn longest_free_part() -> Result<Noise<'static>, Refusal> {
    Noise::new(Given {
        modulus: 2,
        rows: 1,
        columns: 256,
        bound: 1,
        matrix: &ONES,
        target: &[0],
    })
}

const SCHEME: Widest = Widest { coins: [0; 128] };

fn random() -> [u8; 50000] {
    let mut bytes = [0; 50000];
    let mut state: u32 = 1;
    for byte in bytes.iter_mut() {
        state = state.wrapping_mul(1664525).wrapping_add(1013904223);
        *byte = (state >> 24) as u8;
    }
    bytes
}

// The refusal's number, or 0.
fn number<T: Drop>(answer: Result<T, Refusal>) -> u8 {
    match answer {
        Ok(_) => 0,
        Err(refusal) => refusal.number(),
    }
}

// The parts of a mask, with this many entries in its layers and in its free part.
#[derive(Drop)]
struct Parts<const ENTRIES: usize, const FREE: usize> {
    permutations: [u16; ENTRIES],
    layers: [u16; ENTRIES],
    free: [u16; FREE],
    coins: [u8; 384],
}

impl<const ENTRIES: usize, const FREE: usize> Parts<ENTRIES, FREE> {
    // Parts that hold no mask yet.
    fn filled(number: u16, coin: u8) -> Self {
        Parts {
            permutations: [number; ENTRIES],
            layers: [number; ENTRIES],
            free: [number; FREE],
            coins: [coin; 384],
        }
    }

    // Draws the mask, and says how many bytes that took.
    fn draw<R: Relation>(&mut self, relation: &R, random: &[u8]) -> Result<usize, Refusal> {
        let mut places = MaskMut {
            permutations: &mut self.permutations,
            layers: &mut self.layers,
            free: &mut self.free,
            coins: &mut self.coins,
        };
        draw(relation, &SCHEME, random, &mut places)
    }

    // What the checker says of the mask with this free part.
    fn checked<R: Relation>(&self, relation: &R, free: &[u16]) -> u8 {
        let mask = Mask {
            permutations: &self.permutations,
            layers: &self.layers,
            free,
            coins: &self.coins,
        };
        number(mask.check(relation, &SCHEME))
    }
}

#[test]
fn most_layers_are_drawn(rt: HostRuntime) -> Result<(), Fail> {
    let relation = most_layers()?;
    assert_eq!(rt;
        [
            relation.layer_count(),
            relation.layer_len(),
            relation.free_len(),
        ],
        [15, 768, 0]
    );
    let random = random();
    let mut parts = Parts::<11520, 0>::filled(0, 0);
    let read = parts.draw(&relation, &random)?;
    assert!(rt; 384 <= read && read <= 50000);
    assert!(rt; parts.coins.as_slice() == &random[read - 384..read]);
    assert_eq!(rt; parts.checked(&relation, &[]), 0);
    parts.permutations[767] = parts.permutations[0];
    assert_eq!(rt; parts.checked(&relation, &[]), 33);
    Ok(())
}

#[test]
fn one_byte_less_runs_out(rt: HostRuntime) -> Result<(), Fail> {
    let relation = most_layers()?;
    let random = random();
    let mut parts = Parts::<11520, 0>::filled(9, 9);
    let read = parts.draw(&relation, &random)?;
    assert!(rt; 1 <= read && read <= 50000);
    assert_eq!(rt; number(parts.draw(&relation, &random[0..read - 1])), 71);
    assert_eq!(rt; parts.permutations, [0; 11520]);
    assert_eq!(rt; parts.layers, [0; 11520]);
    assert_eq!(rt; parts.coins, [0; 384]);
    Ok(())
}

#[test]
fn longest_free_part_is_drawn(rt: HostRuntime) -> Result<(), Fail> {
    let relation = longest_free_part()?;
    let random = random();
    let mut parts = Parts::<1, 256>::filled(9, 0);
    let read = parts.draw(&relation, &random)?;
    // a permutation of one place takes no word, and modulo 2 no word is skipped
    assert_eq!(rt; read, 898);
    assert_eq!(rt; parts.permutations, [0]);
    assert_eq!(rt; parts.layers, [random[1] as u16 % 2]);
    for (i, number) in parts.free.iter().enumerate() {
        assert_eq!(rt; *number, random[2 * i + 3] as u16 % 2);
    }
    assert!(rt; parts.coins.as_slice() == &random[514..898]);
    assert_eq!(rt; parts.checked(&relation, &parts.free), 0);
    parts.free[255] = 2;
    assert_eq!(rt; parts.checked(&relation, &parts.free), 33);
    assert_eq!(rt; parts.checked(&relation, &parts.free[0..255]), 32);
    Ok(())
}
