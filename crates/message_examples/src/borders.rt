// Messages of the smallest and the largest sizes: written, and read back with their contents and offsets.
ghost use Rattle.std.specs.Prelude.{◌≤◌};

use messages::challenge::Challenge;
use messages::fields::{Answer, Field, Sizes, Triple};
use messages::reader::{read_answer, read_commitments};
use messages::writer::{write_commitments, write_first, write_second, write_third};
use std::array;
use std::process::Abort;
use std::test::Fail;
use vectors::layout::Layout;
use vectors::modular::all_below;

// Whether the bytes are these numbers, two bytes each, the high byte first.
fn holds(content: &[u8], numbers: &[u16]) -> bool {
    let (pairs, rest) = content.as_chunks::<2>();
    rest.is_empty()
        && pairs.len() == numbers.len()
        && pairs
            .iter()
            .zip(numbers)
            .all(|(pair, number)| u16::from_be_bytes(*pair) == *number)
}

// The layers of 768 entries, each moved by its own permutation.
fn moved(positions: &[u16; 11520], layers: &[u16; 11520]) -> [u16; 11520] {
    let mut moved = [0; 11520];
    for (i, position) in positions.iter().enumerate() {
        let place = i / 768 * 768 + *position as usize;
        moved[i] = layers.get(place).copied().unwrap_or(0);
    }
    moved
}

// The fields of an answer in the order of the message. For challenge 1 an empty field stands in the place of the free part.
fn fields<'a>(answer: Answer<'a>) -> [Field<'a>; 5] {
    match answer {
        Answer::First {
            permuted_key,
            permuted_mask,
            coins_2,
            coins_3,
        } => {
            let no_free_part = Field {
                content: &[],
                offset: coins_2.offset,
            };
            [permuted_key, permuted_mask, no_free_part, coins_2, coins_3]
        }
        Answer::Second {
            permutations,
            masked_key,
            masked_free,
            coins_1,
            coins_3,
        } => [permutations, masked_key, masked_free, coins_1, coins_3],
        Answer::Third {
            permutations,
            mask,
            free,
            coins_1,
            coins_2,
        } => [permutations, mask, free, coins_1, coins_2],
    }
}

// What the fields of an answer must say.
#[derive(Clone, Copy)]
struct Wanted<'a> {
    first: &'a [u16],
    second: &'a [u16],
    free: &'a [u16],
    lower: &'a [u8],
    upper: &'a [u8],
    offsets: [usize; 5],
}

fn check_read(
    rt: &impl Abort,
    message: &[u8],
    challenge: Challenge,
    sizes: Sizes,
    wanted: Wanted,
) -> Result<(), Fail> {
    let [first, second, free, lower, upper] = fields(read_answer(message, challenge, sizes)?);
    assert!(rt; holds(first.content, wanted.first));
    assert!(rt; holds(second.content, wanted.second));
    assert!(rt; holds(free.content, wanted.free));
    assert!(rt; lower.content == wanted.lower);
    assert!(rt; upper.content == wanted.upper);
    assert_eq!(rt;
        [
            first.offset,
            second.offset,
            free.offset,
            lower.offset,
            upper.offset,
        ],
        wanted.offsets
    );
    Ok(())
}

#[test]
fn commitments_of_width_1(rt: HostRuntime) -> Result<(), Fail> {
    let mut message = [0; 12];
    assert_eq!(rt;
        write_commitments(
            &mut message,
            Triple {
                one: &[7],
                two: &[8],
                three: &[9]
            }
        )?,
        12
    );
    assert_eq!(rt; message, [1, 0, 1, 7, 2, 0, 1, 8, 3, 0, 1, 9]);
    let read = read_commitments(&message, 1)?;
    assert_eq!(rt;
        [read.first.offset, read.second.offset, read.third.offset],
        [0, 4, 8]
    );
    Ok(())
}

#[test]
fn commitments_of_width_128(rt: HostRuntime) -> Result<(), Fail> {
    let mut message = [0; 393];
    assert_eq!(rt;
        write_commitments(
            &mut message,
            Triple {
                one: &[7; 128],
                two: &[8; 128],
                three: &[9; 128]
            }
        )?,
        393
    );
    let read = read_commitments(&message, 128)?;
    assert!(rt;
        read.first.content == [7; 128].as_slice()
            && read.second.content == [8; 128].as_slice()
            && read.third.content == [9; 128].as_slice()
    );
    assert_eq!(rt;
        [read.first.offset, read.second.offset, read.third.offset],
        [0, 131, 262]
    );
    Ok(())
}

// One layer of one entry, no free part, a width of one byte.
#[test]
fn smallest(rt: HostRuntime) -> Result<(), Fail> {
    let sizes = Sizes {
        layers: 2,
        free: 0,
        width: 1,
    };
    let mut first = [0; 18];
    assert_eq!(rt;
        write_first(
            &mut first,
            &[0],
            &[300],
            &[6],
            Layout {
                layer_count: 1,
                layer_len: 1
            },
            &[7],
            &[8]
        ),
        18
    );
    assert_eq!(rt;
        first,
        [11, 0, 2, 1, 44, 12, 0, 2, 0, 6, 13, 0, 1, 7, 14, 0, 1, 8]
    );
    check_read(
        &rt,
        &first,
        Challenge::One,
        sizes,
        Wanted {
            first: &[300],
            second: &[6],
            free: &[],
            lower: &[7],
            upper: &[8],
            offsets: [0, 5, 10, 10, 14],
        },
    )?;
    let wanted = Wanted {
        first: &[0],
        second: &[300],
        free: &[],
        lower: &[7],
        upper: &[8],
        offsets: [0, 5, 10, 13, 17],
    };
    let mut message = [0; 21];
    assert_eq!(rt;
        write_second(&mut message, &[0], &[300], &[], &[7], &[8]),
        21
    );
    check_read(&rt, &message, Challenge::Two, sizes, wanted)?;
    assert_eq!(rt;
        write_third(&mut message, &[0], &[300], &[], &[7], &[8]),
        21
    );
    check_read(&rt, &message, Challenge::Three, sizes, wanted)
}

// One layer of two entries, a free part of 256 entries, a width of four bytes.
#[test]
fn longest_free_part(rt: HostRuntime) -> Result<(), Fail> {
    let sizes = Sizes {
        layers: 4,
        free: 512,
        width: 4,
    };
    let free = falling::<256>();
    let wanted = Wanted {
        first: &[1, 0],
        second: &[5, 6],
        free: &free,
        lower: b"one.",
        upper: b"tres",
        offsets: [0, 7, 14, 529, 536],
    };
    let mut message = [0; 543];
    assert_eq!(rt;
        write_second(&mut message, &[1, 0], &[5, 6], &free, b"one.", b"tres"),
        543
    );
    check_read(&rt, &message, Challenge::Two, sizes, wanted)?;
    assert_eq!(rt;
        write_third(&mut message, &[1, 0], &[5, 6], &free, b"one.", b"tres"),
        543
    );
    check_read(&rt, &message, Challenge::Three, sizes, wanted)
}

// 15 layers of 768 entries, no free part, a width of 128 bytes.
const LARGEST: Sizes = Sizes {
    layers: 23040,
    free: 0,
    width: 128,
};

// In layer j, position i is i + j modulo 768.
fn turned() -> [u16; 11520] {
    array::from_fn(|i| ((i + i / 768) % 768) as u16)
}

fn rising() -> [u16; 11520] {
    array::from_fn(|i| (5 * i + 1) as u16)
}

fn falling<const N: usize>() -> [u16; N]
    requires { N ≤ 65536 }
{
    array::from_fn(|i| (65535 - i) as u16)
}

#[test]
fn largest_answer_to_challenge_1(rt: HostRuntime) -> Result<(), Fail> {
    let positions = turned();
    let key = rising();
    let mask = falling::<11520>();
    if !all_below(&positions, 768) {
        return Err(Fail::new("a position outside the layer"));
    }
    let mut message = [0; 46348];
    let size = write_first(
        &mut message,
        &positions,
        &key,
        &mask,
        Layout {
            layer_count: 15,
            layer_len: 768,
        },
        &[7; 128],
        &[8; 128],
    );
    assert_eq!(rt; size, 46348);
    let wanted = Wanted {
        first: &moved(&positions, &key),
        second: &moved(&positions, &mask),
        free: &[],
        lower: &[7; 128],
        upper: &[8; 128],
        offsets: [0, 23043, 46086, 46086, 46217],
    };
    check_read(&rt, &message, Challenge::One, LARGEST, wanted)
}

#[test]
fn largest_answers_to_challenges_2_and_3(rt: HostRuntime) -> Result<(), Fail> {
    let positions = turned();
    let layers = falling::<11520>();
    let wanted = Wanted {
        first: &positions,
        second: &layers,
        free: &[],
        lower: &[7; 128],
        upper: &[8; 128],
        offsets: [0, 23043, 46086, 46089, 46220],
    };
    let mut message = [0; 46351];
    let size = write_second(&mut message, &positions, &layers, &[], &[7; 128], &[8; 128]);
    assert_eq!(rt; size, 46351);
    check_read(&rt, &message, Challenge::Two, LARGEST, wanted)?;
    let size = write_third(&mut message, &positions, &layers, &[], &[7; 128], &[8; 128]);
    assert_eq!(rt; size, 46351);
    check_read(&rt, &message, Challenge::Three, LARGEST, wanted)
}
