// Commits to a message under three schemes, opens the commitments, and shows what does not open them.
use crate::text::{show_outcome, yes_or_no};
use commitment::message::{commit, opens};
use commitment::part::Part;
use commitment::scheme::Scheme;
use refusals::refusal::Refusal;
use schemes::hash::Hash;
use schemes::labelled::Labelled;

// Fixed coins, so that every run prints the same; a device takes random bytes.
const COINS: [u8; 32] = [
    7, 14, 21, 28, 35, 42, 49, 56, 63, 70, 77, 84, 91, 98, 105, 112, 119, 126, 133, 140, 147, 154,
    161, 168, 175, 182, 189, 196, 203, 210, 217, 224,
];

const OTHER_COINS: [u8; 32] = [1; 32];

pub fn run(rt: &HostRuntime, message: &str) -> anyhow::Result<()> {
    let bytes = message.as_bytes();
    let len = bytes.len();
    println!(rt; "message: \"{message}\" ({len} bytes)")?;
    let plain = commit_and_open(rt, "hash scheme", &mut Hash::new(), bytes)?;
    let first = under_label(rt, "line 1", bytes)?;
    let second = under_label(rt, "line 2", bytes)?;
    let apart = yes_or_no(plain != first && plain != second && first != second);
    println!(rt; "the three commitments differ: {apart}")?;
    show_refusals(rt, bytes)
}

// Commits under a label over the hash scheme.
fn under_label(rt: &HostRuntime, label: &str, message: &[u8]) -> anyhow::Result<[u8; 32]> {
    let name = format!(in rt.alloc(); "label \"{label}\"")?;
    match Labelled::new(label.as_bytes(), Hash::new()) {
        Ok(mut scheme) => commit_and_open(rt, name.as_str(), &mut scheme, message),
        Err(refusal) => {
            println!(rt; "{name}: refused by {refusal}")?;
            Ok([0; 32])
        }
    }
}

fn commit_and_open<S: Scheme>(
    rt: &HostRuntime,
    name: &str,
    scheme: &mut S,
    message: &[u8],
) -> anyhow::Result<[u8; 32]> {
    let mut commitment = [0u8; 32];
    if let Err(refusal) = commit(scheme, &COINS, &[Part::Bytes(message)], &mut commitment) {
        println!(rt; "{name}: refused by {refusal}")?;
        return Ok(commitment);
    }
    let digits = hex::encode(rt.alloc(), &commitment)?;
    println!(rt; "{name}: {digits}")?;
    show_opening(
        rt,
        "the same coins and message",
        opens(scheme, &commitment, &COINS, &[Part::Bytes(message)]),
    )?;
    let changed = [Part::Bytes(message), Part::Words(&[33])];
    show_opening(
        rt,
        "a changed message",
        opens(scheme, &commitment, &COINS, &changed),
    )?;
    show_opening(
        rt,
        "changed coins",
        opens(scheme, &commitment, &OTHER_COINS, &[Part::Bytes(message)]),
    )?;
    Ok(commitment)
}

fn show_opening(rt: &HostRuntime, by: &str, answer: Result<bool, Refusal>) -> anyhow::Result<()> {
    match answer {
        Ok(opened) => {
            let said = yes_or_no(opened);
            println!(rt; "  opened by {by}: {said}")?;
        }
        Err(refusal) => println!(rt; "  {by}: refused by {refusal}")?,
    }
    Ok(())
}

// Wrong lengths, each refused by its number.
fn show_refusals(rt: &HostRuntime, message: &[u8]) -> anyhow::Result<()> {
    show_outcome(
        rt,
        "31 coins",
        under_hash(&COINS[0..31], Part::Bytes(message), &mut [0; 32]),
    )?;
    show_outcome(
        rt,
        "an output of 31 bytes",
        under_hash(&COINS, Part::Bytes(message), &mut [0; 31]),
    )?;
    show_outcome(
        rt,
        "a message of 65,538 bytes",
        under_hash(&COINS, Part::Words(&[0; 32769]), &mut [0; 32]),
    )?;
    show_outcome(
        rt,
        "a label of 17 bytes",
        Labelled::new(b"seventeen letters", Hash::new()),
    )
}

fn under_hash(coins: &[u8], part: Part, commitment: &mut [u8]) -> Result<(), Refusal> {
    commit(&mut Hash::new(), coins, &[part], commitment)
}
