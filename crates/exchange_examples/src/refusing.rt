// Each refusal of the exchange's calls, with its place, and that it changes nothing.
use crate::desk::{Call, Change, Desk, Lent};
use crate::honest::{SHORT_KEY, short, short_mask};
use std::process::Abort;
use std::test::*;

// Makes the calls, and looks whether something was logged.
fn check_calls(rt: &impl Abort, calls: &[(Call, (u8, usize))], logged: bool) -> Result<(), Fail> {
    let mut desk = Desk::new(short()?, &SHORT_KEY, &short_mask())?;
    desk.check_calls(rt, calls);
    assert_eq!(rt; desk.nothing_logged(), !logged);
    Ok(())
}

// The line stays free.
#[test]
fn open_refuses_lines_and_messages(rt: HostRuntime) -> Result<(), Fail> {
    check_calls(
        &rt,
        &[
            (Call::Open(4, Change::Nothing), (40, 0)),
            (Call::Open(3, Change::Cut), (81, 70)),
            (Call::Open(3, Change::Turned(35, 1)), (82, 35)),
            (Call::Open(3, Change::Turned(37, 48)), (83, 35)),
            (Call::Open(3, Change::Extended), (84, 105)),
            (Call::Clear(3), (46, 0)),
            (Call::Open(3, Change::Nothing), (0, 0)),
        ],
        false,
    )
}

// Other commitments are refused, and the answer to the first ones gets a yes.
#[test]
fn lines_in_use_keep_commitments_and_challenge(rt: HostRuntime) -> Result<(), Fail> {
    check_calls(
        &rt,
        &[
            (Call::Open(0, Change::Nothing), (0, 0)),
            (Call::Open(0, Change::Turned(3, 1)), (41, 0)),
            (Call::Dice(0, 254), (3, 0)),
            (Call::Open(0, Change::Turned(3, 1)), (41, 0)),
            (Call::Dice(0, 0), (42, 0)),
            (Call::Judge(0, 3, Change::Nothing), (0, 0)),
        ],
        true,
    )
}

#[test]
fn dice_refuses_lines_and_the_byte_255(rt: HostRuntime) -> Result<(), Fail> {
    check_calls(
        &rt,
        &[
            (Call::Dice(4, 0), (40, 0)),
            (Call::Dice(1, 0), (42, 0)),
            (Call::Open(1, Change::Nothing), (0, 0)),
            (Call::Dice(1, 255), (43, 0)),
            (Call::Dice(1, 253), (2, 0)),
            (Call::Dice(1, 255), (42, 0)),
        ],
        false,
    )
}

#[test]
fn clear_refuses_free_lines(rt: HostRuntime) -> Result<(), Fail> {
    check_calls(
        &rt,
        &[
            (Call::Clear(4), (40, 0)),
            (Call::Clear(2), (46, 0)),
            (Call::Open(2, Change::Nothing), (0, 0)),
            (Call::Clear(2), (0, 0)),
            (Call::Clear(2), (46, 0)),
            (Call::Open(2, Change::Nothing), (0, 0)),
            (Call::Dice(2, 1), (2, 0)),
            (Call::Clear(2), (0, 0)),
            (Call::Dice(2, 1), (42, 0)),
        ],
        false,
    )
}

#[test]
fn judge_refuses_lines_that_are_not_challenged(rt: HostRuntime) -> Result<(), Fail> {
    check_calls(
        &rt,
        &[
            (Call::Judge(4, 1, Change::Nothing), (40, 0)),
            (Call::Judge(0, 1, Change::Nothing), (44, 0)),
            (Call::Open(0, Change::Nothing), (0, 0)),
            (Call::Judge(0, 1, Change::Nothing), (44, 0)),
            (Call::Dice(0, 0), (1, 0)),
            (Call::Judge(0, 1, Change::Nothing), (0, 0)),
            (Call::Judge(0, 1, Change::Nothing), (44, 0)),
        ],
        true,
    )
}

const fn lend(records: usize, bytes: usize, work: usize) -> (Call, (u8, usize)) {
    (
        Call::Lend(Lent {
            records,
            bytes,
            work,
        }),
        (0, 0),
    )
}

// One record, one byte and one residue too few.
#[test]
fn judge_refuses_short_memory(rt: HostRuntime) -> Result<(), Fail> {
    check_calls(
        &rt,
        &[
            (Call::Open(0, Change::Nothing), (0, 0)),
            (Call::Dice(0, 0), (1, 0)),
            lend(0, 460, 0),
            (Call::Judge(0, 1, Change::Nothing), (45, 0)),
            lend(3, 147, 18),
            (Call::Judge(0, 1, Change::Nothing), (45, 0)),
            lend(3, 460, 17),
            (Call::Judge(0, 1, Change::Nothing), (37, 0)),
        ],
        false,
    )
}

// The line stays challenged, and just enough memory is taken.
#[test]
fn judge_goes_on_with_more_memory(rt: HostRuntime) -> Result<(), Fail> {
    check_calls(
        &rt,
        &[
            (Call::Open(0, Change::Nothing), (0, 0)),
            (Call::Dice(0, 0), (1, 0)),
            lend(0, 148, 18),
            (Call::Judge(0, 1, Change::Nothing), (45, 0)),
            lend(1, 148, 17),
            (Call::Judge(0, 1, Change::Nothing), (37, 0)),
            lend(1, 148, 18),
            (Call::Judge(0, 1, Change::Nothing), (0, 0)),
        ],
        true,
    )
}
