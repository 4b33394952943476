// Draws a mask from random bytes, writes a commitments message and reads it again.
use crate::keys::weight_given;
use crate::text::show_numbers;
use commitment::message::commit;
use commitment::part::Part;
use masks::draw::draw;
use masks::mask::MaskMut;
use messages::fields::Triple;
use messages::reader::read_commitments;
use messages::writer::write_commitments;
use refusals::refusal::Refusal;
use schemes::hash::Hash;
use weight_statement::weight::Weight;

pub fn run(rt: &HostRuntime) -> anyhow::Result<()> {
    let mut random = [0u8; 160];
    fill(&mut random);
    let mut coins = [0u8; 96];
    if draw_mask(rt, &random, &mut coins)? {
        show_message(rt, &coins)?;
    }
    let mut unused = [0u8; 96];
    let _drawn = draw_mask(rt, &random[0..40], &mut unused)?;
    Ok(())
}

// Fixed bytes in place of random ones, so that every run prints the same; a device takes random bytes.
pub fn fill(random: &mut [u8]) {
    fill_from(2026, random);
}

pub fn fill_from(start: u32, random: &mut [u8]) {
    let mut state = start;
    for byte in random.iter_mut() {
        state = state.wrapping_mul(1664525).wrapping_add(1013904223);
        *byte = (state >> 24) as u8;
    }
}

// Says whether a mask was drawn.
fn draw_mask(rt: &HostRuntime, random: &[u8], coins: &mut [u8]) -> anyhow::Result<bool> {
    let statement = Weight::new(weight_given(5))?;
    let len = random.len();
    let mut permutations = [0u16; 4];
    let mut layers = [0u16; 4];
    let mut mask = MaskMut {
        permutations: &mut permutations,
        layers: &mut layers,
        free: &mut [],
        coins,
    };
    match draw(&statement, &Hash::new(), random, &mut mask) {
        Ok(count) => {
            println!(rt; "a mask from {len} random bytes: {count} of them were read")?;
            show_numbers(rt, "permutation", mask.permutations)?;
            show_numbers(rt, "R", mask.layers)?;
            Ok(true)
        }
        Err(refusal) => {
            println!(rt; "a mask from {len} random bytes: refused by {refusal}")?;
            Ok(false)
        }
    }
}

fn show_message(rt: &HostRuntime, coins: &[u8; 96]) -> anyhow::Result<()> {
    let one = committed(&coins[0..32], b"first")?;
    let two = committed(&coins[32..64], b"second")?;
    let three = committed(&coins[64..96], b"third")?;
    let mut message = [0u8; 105];
    let len = write_commitments(
        &mut message,
        Triple {
            one: &one,
            two: &two,
            three: &three,
        },
    )?;
    println!(rt; "commitments message of {len} bytes")?;
    show_reading(rt, &message)?;
    show_reading(rt, &message[0..80])
}

fn committed(coins: &[u8], message: &[u8]) -> Result<[u8; 32], Refusal> {
    let mut commitment = [0; 32];
    commit(
        &mut Hash::new(),
        coins,
        &[Part::Bytes(message)],
        &mut commitment,
    )?;
    Ok(commitment)
}

fn show_reading(rt: &HostRuntime, message: &[u8]) -> anyhow::Result<()> {
    let len = message.len();
    match read_commitments(message, 32) {
        Ok(read) => {
            let digits = hex::encode(rt.alloc(), read.third.content)?;
            let offset = read.third.offset;
            println!(rt; "  read from {len} bytes: commitment 3 at byte {offset} is {digits}")?;
        }
        Err(fault) => println!(rt; "  read from {len} bytes: refused by {fault}")?,
    }
    Ok(())
}
