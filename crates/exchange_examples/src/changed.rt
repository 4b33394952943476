// Answers with one byte changed: none gets a yes.
use crate::desk::{Call, Change, Desk};
use crate::honest::{
    Mask, NOISE_KEY, SHORT_KEY, noise, noise_mask, random_bytes, short, short_mask,
};
use relation::Relation;
use std::process::Abort;
use std::test::*;

// What judge says on a line that is opened and challenged anew.
fn verdict<R: Relation + Drop>(desk: &mut Desk<R>, byte: u8, change: Change) -> u8 {
    let (opened, _) = desk.answer(Call::Open(0, Change::Nothing));
    let (thrown, _) = desk.answer(Call::Dice(0, byte));
    let (verdict, _) = desk.answer(Call::Judge(0, thrown as usize, change));
    if opened == 0 { verdict } else { opened }
}

// Whether this is the number of a cause of a no.
fn is_no(number: u8) -> bool {
    81 <= number && number <= 88
}

// Says whether the answer gets a no with another byte in each place in turn: once with the lowest bit turned, once with bits that
// look random.
fn changes_get_a_no<R: Relation + Drop>(desk: &mut Desk<R>, byte: u8, len: usize) -> bool {
    let random: [u8; 152] = random_bytes(1);
    for (place, bits) in random.iter().take(len).enumerate() {
        let lowest = verdict(desk, byte, Change::Turned(place, 1));
        let other = verdict(desk, byte, Change::Turned(place, *bits | 2));
        if !is_no(lowest) || !is_no(other) {
            return false;
        }
    }
    true
}

// The answer to a challenge, changed, and then as it is.
fn check_changes<R: Relation + Drop>(
    rt: &impl Abort,
    relation: R,
    key: &[R::Entry],
    mask: &Mask,
    byte: u8,
    len: usize,
) -> Result<(), Fail> {
    let mut desk = Desk::new(relation, key, mask)?;
    let all = changes_get_a_no(&mut desk, byte, len);
    assert!(rt; all && desk.nothing_logged());
    assert_eq!(rt; verdict(&mut desk, byte, Change::Nothing), 0);
    Ok(())
}

#[test]
fn changed_short_answers_get_a_no(rt: HostRuntime) -> Result<(), Fail> {
    check_changes(&rt, short()?, &SHORT_KEY, &short_mask(), 0, 148)?;
    check_changes(&rt, short()?, &SHORT_KEY, &short_mask(), 1, 151)?;
    check_changes(&rt, short()?, &SHORT_KEY, &short_mask(), 2, 151)
}

#[test]
fn changed_noise_answers_get_a_no(rt: HostRuntime) -> Result<(), Fail> {
    check_changes(&rt, noise()?, &NOISE_KEY, &noise_mask(), 0, 92)?;
    check_changes(&rt, noise()?, &NOISE_KEY, &noise_mask(), 1, 99)?;
    check_changes(&rt, noise()?, &NOISE_KEY, &noise_mask(), 2, 99)
}
