// The exchange's side of a case: a yes to the answer, and a no with its cause to every change of it.
use crate::expected::{Change, ExpectedAnswer};
use exchange_moves::judging::judge;
use messages::challenge::Challenge;
use messages::fields::Triple;
use relation::Relation;
use schemes::hash::Hash;
use std::alloc::{AllocError, Global};
use std::process::Abort;
use std::test::Fail;

// The number and the place of the cause of a no; zeros for a yes. A refusal has its own number.
pub fn verdict<R: Relation>(
    relation: &R,
    commitments: &[u8; 105],
    challenge: Challenge,
    message: &[u8],
    work: &mut [u16],
) -> (u8, usize) {
    let commitments = Triple {
        one: &commitments[3..35],
        two: &commitments[38..70],
        three: &commitments[73..105],
    };
    let mut scheme = Hash::new();
    match judge(relation, &mut scheme, commitments, challenge, message, work) {
        Ok(Ok(())) => (0, 0),
        Ok(Err(cause)) => (cause.number(), cause.place()),
        Err(refusal) => (refusal.number(), 0),
    }
}

// The commitments 2, 3 and 1 in the places of 1, 2 and 3.
fn moved_on(commitments: &[u8; 105]) -> [u8; 105] {
    let mut moved = *commitments;
    moved.rotate_left(35);
    moved
}

// The message with four bytes replaced. Where these would not lie within it, it is left out.
fn changed(
    heap: Global,
    message: &[u8],
    offset: usize,
    replaced: [u8; 4],
) -> Result<Vec<u8>, AllocError> {
    let mut bytes = Vec::new(heap);
    if let (Some(before), Some(behind)) = (
        message.get(0..offset),
        message.get(offset.saturating_add(4)..),
    ) {
        bytes.extend_from_slice(before)?;
        bytes.extend_from_slice(&replaced)?;
        bytes.extend_from_slice(behind)?;
    }
    Ok(bytes)
}

// A no to each change.
fn check_changes<R: Relation>(
    rt: &impl Abort,
    heap: Global,
    relation: &R,
    commitments: &[u8; 105],
    challenge: Challenge,
    message: &[u8],
    work: &mut [u16],
    changes: &[Change],
) -> Result<(), Fail> {
    for change in changes {
        let Change(offset, replaced, number, place) = *change;
        let forged = changed(heap, message, offset, replaced)?;
        assert_eq!(rt; forged.len(), message.len());
        assert_eq!(rt;
            verdict(relation, commitments, challenge, &forged, work),
            (number, place)
        );
    }
    Ok(())
}

// A no where the last byte is missing, and where there is one more.
fn check_lengths<R: Relation>(
    rt: &impl Abort,
    heap: Global,
    relation: &R,
    commitments: &[u8; 105],
    challenge: Challenge,
    message: &[u8],
    work: &mut [u16],
    last_field: usize,
) -> Result<(), Fail> {
    let mut longer = Vec::from_slice(heap, message)?;
    longer.push(0)?;
    assert_eq!(rt;
        verdict(relation, commitments, challenge, &longer, work),
        (84, message.len())
    );
    let Some((_, shorter)) = message.split_last() else {
        return Err(Fail::new("the message is empty"));
    };
    assert_eq!(rt;
        verdict(relation, commitments, challenge, shorter, work),
        (81, last_field)
    );
    Ok(())
}

// A no to the answer as one to another challenge.
fn check_other_challenges<R: Relation>(
    rt: &impl Abort,
    relation: &R,
    commitments: &[u8; 105],
    challenge: Challenge,
    message: &[u8],
    work: &mut [u16],
) {
    for other in [Challenge::One, Challenge::Two, Challenge::Three] {
        let wanted = if other == challenge { (0, 0) } else { (82, 0) };
        assert_eq!(rt;
            verdict(relation, commitments, other, message, work),
            wanted
        );
    }
}

// All verdicts on an answer and its changes.
pub fn check_verdicts<R: Relation>(
    rt: &impl Abort,
    heap: Global,
    relation: &R,
    commitments: &[u8; 105],
    challenge: Challenge,
    message: &[u8],
    work: &mut [u16],
    expected: &ExpectedAnswer,
) -> Result<(), Fail> {
    check_other_challenges(rt, relation, commitments, challenge, message, work);
    assert_eq!(rt;
        verdict(relation, &moved_on(commitments), challenge, message, work),
        (88, expected.lower_opened)
    );
    let changes = expected.changes;
    check_changes(
        rt,
        heap,
        relation,
        commitments,
        challenge,
        message,
        work,
        changes,
    )?;
    check_lengths(
        rt,
        heap,
        relation,
        commitments,
        challenge,
        message,
        work,
        expected.last_field,
    )
}
