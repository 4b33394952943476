// The console's side of a case: the mask, the commitments message and the answers, each held to what is expected.
use crate::digits;
use crate::expected::{Expected, ExpectedAnswer};
use crate::stream::Stream;
use console_moves::answering::answer;
use console_moves::committing::commit;
use masks::draw::draw;
use masks::mask::{Mask, MaskMut};
use messages::challenge::Challenge;
use refusals::refusal::Refusal;
use relation::Relation;
use schemes::hash::Hash;
use sha256::digest;
use std::alloc::{AllocError, Global};
use std::process::Abort;
use std::test::Fail;

#[derive(Drop)]
pub struct MaskParts {
    permutations: Vec<u16>,
    layers: Vec<u16>,
    free: Vec<u16>,
    coins: [u8; 96],
}

impl MaskParts {
    // Parts of the right lengths that hold no mask yet.
    fn sized(heap: Global, expected: &Expected) -> Result<MaskParts, AllocError> {
        Ok(MaskParts {
            permutations: vec![in heap; 9; expected.entries]?,
            layers: vec![in heap; 9; expected.entries]?,
            free: vec![in heap; 9; expected.free]?,
            coins: [9; 96],
        })
    }

    // Draws the mask, and says how many bytes that took.
    fn fill<R: Relation>(&mut self, relation: &R, random: &[u8]) -> Result<usize, Refusal> {
        let mut places = MaskMut {
            permutations: &mut self.permutations,
            layers: &mut self.layers,
            free: &mut self.free,
            coins: &mut self.coins,
        };
        draw(relation, &Hash::new(), random, &mut places)
    }

    fn as_mask(&self) -> Mask<'_> {
        Mask {
            permutations: &self.permutations,
            layers: &self.layers,
            free: &self.free,
            coins: &self.coins,
        }
    }
}

// A work area that is not zeros at first.
pub fn work_area(heap: Global, expected: &Expected) -> Result<Vec<u16>, AllocError> {
    vec![in heap; 9; expected.entries.saturating_add(expected.free)]
}

fn is_zeros(numbers: &[u16]) -> bool {
    for number in numbers {
        if *number != 0 {
            return false;
        }
    }
    true
}

// The mask that the next bytes give. They are exactly as many as it takes.
pub fn drawn<R: Relation>(
    rt: &impl Abort,
    heap: Global,
    relation: &R,
    stream: &mut Stream,
    expected: &Expected,
) -> Result<MaskParts, Fail> {
    let random = stream.bytes(heap, expected.bytes_read)?;
    let mut parts = MaskParts::sized(heap, expected)?;
    assert_eq!(rt; parts.fill(relation, &random)?, expected.bytes_read);
    Ok(parts)
}

// The commitments message.
pub fn committed<R: Relation>(
    rt: &impl Abort,
    heap: Global,
    relation: &R,
    key: &[R::Entry],
    parts: &MaskParts,
    expected: &Expected,
) -> Result<[u8; 105], Fail> {
    let mut message = [0; 105];
    let mut work = work_area(heap, expected)?;
    let length = commit(
        relation,
        &mut Hash::new(),
        key,
        parts.as_mask(),
        &mut work,
        &mut message,
    )?;
    assert_eq!(rt; length, 105);
    let text = expected.commitments;
    assert_eq!(rt; message, digits::bytes::<105>(text));
    assert!(rt; is_zeros(&work));
    Ok(message)
}

// The answer to a challenge.
pub fn answered<R: Relation>(
    rt: &impl Abort,
    heap: Global,
    relation: &R,
    key: &[R::Entry],
    parts: &MaskParts,
    challenge: Challenge,
    work: &mut [u16],
    expected: &ExpectedAnswer,
) -> Result<Vec<u8>, Fail> {
    let mut message = vec![in heap; 0; expected.length]?;
    let length = answer(
        relation,
        &Hash::new(),
        key,
        parts.as_mask(),
        challenge.number(),
        work,
        &mut message,
    )?;
    assert_eq!(rt; length, expected.length);
    let text = expected.digest;
    assert_eq!(rt; digest(&message)?, digits::bytes::<32>(text));
    assert!(rt; is_zeros(work));
    Ok(message)
}
