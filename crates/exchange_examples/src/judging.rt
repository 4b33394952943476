// Verdicts: each cause of a no, with its place, and the log of the yeses.
use crate::desk::{Call, Change, Desk, UNUSED};
use crate::honest::{Message, SHORT_KEY, short, short_mask};
use exchange_steps::log::Record;
use messages::challenge::Challenge;
use relation::Relation;
use std::process::Abort;
use std::test::*;

// The answer to the challenge with this number, changed in each of these ways, gets a no with this cause on a line that is opened and
// challenged anew by this byte. Nothing is logged.
fn check_causes(
    rt: &impl Abort,
    byte: u8,
    number: usize,
    causes: &[(Change, (u8, usize))],
) -> Result<(), Fail> {
    let mut desk = Desk::new(short()?, &SHORT_KEY, &short_mask())?;
    for &(change, cause) in causes {
        desk.check_calls(
            rt,
            &[
                (Call::Open(0, Change::Nothing), (0, 0)),
                (Call::Dice(0, byte), (byte % 3 + 1, 0)),
                (Call::Judge(0, number, change), cause),
            ],
        );
    }
    assert!(rt; desk.nothing_logged());
    Ok(())
}

// The fields begin at 0, 39, 78 and 113.
#[test]
fn unreadable_answers_get_a_no(rt: HostRuntime) -> Result<(), Fail> {
    check_causes(
        &rt,
        0,
        1,
        &[
            (Change::Cut, (81, 113)),
            (Change::Turned(39, 1), (82, 39)),
            (Change::Turned(41, 4), (83, 39)),
            (Change::Extended, (84, 148)),
        ],
    )
}

#[test]
fn answer_to_another_challenge_gets_a_no(rt: HostRuntime) -> Result<(), Fail> {
    check_causes(&rt, 1, 1, &[(Change::Nothing, (82, 0))])
}

// The second residue is 11 for 10; layer 1 has a zero for a one; other coins for commitment 2, and for 3.
#[test]
fn wrong_answers_to_challenge_1_get_a_no(rt: HostRuntime) -> Result<(), Fail> {
    check_causes(
        &rt,
        0,
        1,
        &[
            (Change::Turned(6, 1), (85, 5)),
            (Change::Turned(16, 1), (87, 1)),
            (Change::Turned(81, 1), (88, 2)),
            (Change::Turned(116, 1), (88, 3)),
        ],
    )
}

// The fields begin at 0, 39, 78, 81 and 116. The first residue is more by 256; layer 1 has the position 4 twice; other coins for
// commitment 1, and for 3.
#[test]
fn wrong_answers_to_challenge_2_get_a_no(rt: HostRuntime) -> Result<(), Fail> {
    check_causes(
        &rt,
        1,
        2,
        &[
            (Change::Turned(42, 1), (85, 42)),
            (Change::Turned(16, 1), (86, 1)),
            (Change::Turned(84, 1), (88, 1)),
            (Change::Turned(119, 1), (88, 3)),
        ],
    )
}

// The same, and other coins for commitment 1, and for 2.
#[test]
fn wrong_answers_to_challenge_3_get_a_no(rt: HostRuntime) -> Result<(), Fail> {
    check_causes(
        &rt,
        2,
        3,
        &[
            (Change::Turned(42, 1), (85, 42)),
            (Change::Turned(16, 1), (86, 1)),
            (Change::Turned(84, 1), (88, 1)),
            (Change::Turned(119, 1), (88, 2)),
        ],
    )
}

// A yes on each of two lines that are challenged at the same time, and a no between them.
#[test]
fn yeses_are_logged_one_behind_another(rt: HostRuntime) -> Result<(), Fail> {
    let mut desk = Desk::new(short()?, &SHORT_KEY, &short_mask())?;
    desk.check_calls(
        &rt,
        &[
            (Call::Open(1, Change::Nothing), (0, 0)),
            (Call::Dice(1, 3), (1, 0)),
            (Call::Open(3, Change::Nothing), (0, 0)),
            (Call::Dice(3, 4), (2, 0)),
            (Call::Judge(1, 1, Change::Nothing), (0, 0)),
            (Call::Open(1, Change::Turned(3, 1)), (0, 0)),
            (Call::Dice(1, 5), (3, 0)),
            (Call::Judge(1, 3, Change::Nothing), (88, 1)),
            (Call::Judge(3, 2, Change::Nothing), (0, 0)),
        ],
    );
    check_log(&rt, &desk);
    Ok(())
}

// The second entry's bytes stand behind those of the first. The third record and the bytes behind stay as they were.
fn check_log<R: Relation + Drop>(rt: &impl Abort, desk: &Desk<R>) {
    let [open, one, two, _] = desk.honest;
    let commitments = row(&open);
    let logged = [
        Record {
            commitments,
            challenge: Challenge::One,
            start: 0,
            len: 148,
        },
        Record {
            commitments,
            challenge: Challenge::Two,
            start: 148,
            len: 151,
        },
        UNUSED,
    ];
    assert!(rt; desk.records == logged);
    let one_logged = &desk.bytes[0..148];
    let two_logged = &desk.bytes[148..299];
    let behind = &desk.bytes[299..460];
    assert!(rt; one_logged == &one.bytes[0..148] && two_logged == &two.bytes[0..151]);
    assert!(rt; behind == [9; 161].as_slice());
}

// The contents of the commitments message, one behind another, and zeros.
fn row(open: &Message) -> [u8; 384] {
    let mut row = [0; 384];
    let first = open.bytes[3..35].iter();
    let second = open.bytes[38..70].iter();
    let third = open.bytes[73..105].iter();
    for (place, byte) in row.iter_mut().zip(first.chain(second).chain(third)) {
        *place = *byte;
    }
    row
}
