// Right messages that were cut, changed in a head, or made longer: each is refused with its number and place.
use messages::challenge::Challenge;
use messages::fields::{Sizes, Triple};
use messages::reader::{read_answer, read_commitments};
use messages::writer::{write_commitments, write_first, write_second, write_third};
use refusals::fault::Fault;
use std::process::Abort;
use std::test::Fail;
use vectors::layout::Layout;

// Two layers of three entries, a free part of two entries, a width of four bytes.
const SMALL: Sizes = Sizes {
    layers: 12,
    free: 4,
    width: 4,
};

const LAYOUT: Layout = Layout {
    layer_count: 2,
    layer_len: 3,
};

const POSITIONS: [u16; 6] = [1, 2, 0, 2, 1, 0];

const KEY: [u16; 6] = [1, 0, 6, 0, 1, 6];

const MASK: [u16; 6] = [258, 4, 3, 2, 1, 0];

const FREE: [u16; 2] = [5, 515];

const COMMITTED: Triple = Triple {
    one: b"one.",
    two: b"two.",
    three: b"tres",
};

// What a message is read as.
#[derive(Clone, Copy)]
enum Kind {
    Commitments,
    Answer(Challenge),
}

// A field that a message must have.
#[derive(Clone, Copy)]
struct Slot {
    tag: u8,
    size: u8,
}

const COMMITMENTS: [Slot; 3] = [
    Slot { tag: 1, size: 4 },
    Slot { tag: 2, size: 4 },
    Slot { tag: 3, size: 4 },
];

const FIRST: [Slot; 4] = [
    Slot { tag: 11, size: 12 },
    Slot { tag: 12, size: 12 },
    Slot { tag: 13, size: 4 },
    Slot { tag: 14, size: 4 },
];

const SECOND: [Slot; 5] = [
    Slot { tag: 21, size: 12 },
    Slot { tag: 22, size: 12 },
    Slot { tag: 23, size: 4 },
    Slot { tag: 24, size: 4 },
    Slot { tag: 25, size: 4 },
];

const THIRD: [Slot; 5] = [
    Slot { tag: 31, size: 12 },
    Slot { tag: 32, size: 12 },
    Slot { tag: 33, size: 4 },
    Slot { tag: 34, size: 4 },
    Slot { tag: 35, size: 4 },
];

// The number and the place of a fault, or zeros.
fn outcome<T: Drop>(read: Result<T, Fault>) -> (u8, usize) {
    read.err()
        .map_or((0, 0), |fault| (fault.kind.number(), fault.place))
}

fn reading(kind: Kind, message: &[u8]) -> (u8, usize) {
    match kind {
        Kind::Commitments => outcome(read_commitments(message, SMALL.width)),
        Kind::Answer(challenge) => outcome(read_answer(message, challenge, SMALL)),
    }
}

// The field that holds this byte of a right message, and the field's offset.
fn slot_at(slots: &[Slot], place: usize) -> Option<(Slot, usize)> {
    let mut offset: usize = 0;
    for slot in slots {
        let end = offset.saturating_add(3 + slot.size as usize);
        if place < end {
            return Some((*slot, offset));
        }
        offset = end;
    }
    None
}

// The number that a field with this head must get, where so many bytes stand behind the head: cut off, then the tag, then the length.
fn number_by_rule(slot: Slot, head: [u8; 3], left: usize) -> u8 {
    let stated = head[1] as usize * 256 + head[2] as usize;
    if stated > left {
        81
    } else if head[0] != slot.tag {
        82
    } else if stated != slot.size as usize {
        83
    } else {
        0
    }
}

fn check_prefixes(rt: &impl Abort, kind: Kind, slots: &[Slot], message: &[u8]) -> Result<(), Fail> {
    for cut in 0..message.len() {
        let Some((_, offset)) = slot_at(slots, cut) else {
            return Err(Fail::new("the message is longer than its fields"));
        };
        assert_eq!(rt; reading(kind, &message[0..cut]), (81, offset));
    }
    Ok(())
}

fn check_heads<const N: usize>(
    rt: &impl Abort,
    kind: Kind,
    slots: &[Slot],
    message: &[u8; N],
) -> Result<(), Fail> {
    for (place, right) in message.iter().enumerate() {
        let Some((slot, offset)) = slot_at(slots, place) else {
            return Err(Fail::new("the message is longer than its fields"));
        };
        let byte = place.saturating_sub(offset);
        if byte < 3 {
            for value in 0..256u16 {
                let mut changed = *message;
                changed[place] = value as u8;
                let mut head = [slot.tag, 0, slot.size];
                head[byte] = value as u8;
                let number = number_by_rule(slot, head, N.saturating_sub(offset).saturating_sub(3));
                let wanted = if value as u8 == *right {
                    (0, 0)
                } else {
                    (number, offset)
                };
                assert_eq!(rt; reading(kind, &changed), wanted);
            }
        }
    }
    Ok(())
}

fn check_refusals<const N: usize>(
    rt: &impl Abort,
    kind: Kind,
    slots: &[Slot],
    message: &[u8; N],
) -> Result<(), Fail> {
    check_prefixes(rt, kind, slots, message)?;
    check_heads(rt, kind, slots, message)
}

#[test]
fn commitments(rt: HostRuntime) -> Result<(), Fail> {
    let mut message = [0; 21];
    assert_eq!(rt; write_commitments(&mut message, COMMITTED)?, 21);
    check_refusals(&rt, Kind::Commitments, &COMMITMENTS, &message)
}

#[test]
fn answer_to_challenge_1(rt: HostRuntime) -> Result<(), Fail> {
    let mut message = [0; 44];
    let size = write_first(
        &mut message,
        &POSITIONS,
        &KEY,
        &MASK,
        LAYOUT,
        b"two.",
        b"tres",
    );
    assert_eq!(rt; size, 44);
    check_refusals(&rt, Kind::Answer(Challenge::One), &FIRST, &message)
}

#[test]
fn answer_to_challenge_2(rt: HostRuntime) -> Result<(), Fail> {
    let mut message = [0; 51];
    let size = write_second(&mut message, &POSITIONS, &MASK, &FREE, b"one.", b"tres");
    assert_eq!(rt; size, 51);
    check_refusals(&rt, Kind::Answer(Challenge::Two), &SECOND, &message)
}

#[test]
fn answer_to_challenge_3(rt: HostRuntime) -> Result<(), Fail> {
    let mut message = [0; 51];
    let size = write_third(&mut message, &POSITIONS, &MASK, &FREE, b"one.", b"two.");
    assert_eq!(rt; size, 51);
    check_refusals(&rt, Kind::Answer(Challenge::Three), &THIRD, &message)
}

#[test]
fn one_byte_more(rt: HostRuntime) -> Result<(), Fail> {
    let mut longer = [0; 22];
    let _ = write_commitments(&mut longer, COMMITTED)?;
    assert_eq!(rt; reading(Kind::Commitments, &longer), (84, 21));
    let mut longer = [0; 45];
    let _ = write_first(
        &mut longer,
        &POSITIONS,
        &KEY,
        &MASK,
        LAYOUT,
        b"two.",
        b"tres",
    );
    assert_eq!(rt; reading(Kind::Answer(Challenge::One), &longer), (84, 44));
    let mut longer = [0; 52];
    let _ = write_second(&mut longer, &POSITIONS, &MASK, &FREE, b"one.", b"tres");
    assert_eq!(rt; reading(Kind::Answer(Challenge::Two), &longer), (84, 51));
    let _ = write_third(&mut longer, &POSITIONS, &MASK, &FREE, b"one.", b"two.");
    assert_eq!(rt; reading(Kind::Answer(Challenge::Three), &longer), (84, 51));
    Ok(())
}
