// A whole case: mask, commitments, and each challenge with its answer and the verdicts on it.
use crate::expected::{Expected, ExpectedAnswer};
use crate::judged::check_verdicts;
use crate::made::{MaskParts, answered, committed, drawn, work_area};
use crate::stream::Stream;
use messages::challenge::Challenge;
use relation::Relation;
use std::alloc::Global;
use std::process::Abort;
use std::test::Fail;

fn check_challenge<R: Relation>(
    rt: &impl Abort,
    heap: Global,
    relation: &R,
    key: &[R::Entry],
    parts: &MaskParts,
    commitments: &[u8; 105],
    challenge: Challenge,
    work: &mut [u16],
    expected: &ExpectedAnswer,
) -> Result<(), Fail> {
    let message = answered(rt, heap, relation, key, parts, challenge, work, expected)?;
    check_verdicts(
        rt,
        heap,
        relation,
        commitments,
        challenge,
        &message,
        work,
        expected,
    )
}

pub fn check_case<R: Relation>(
    rt: &impl Abort,
    heap: Global,
    relation: &R,
    key: &[R::Entry],
    stream: &mut Stream,
    expected: &Expected,
) -> Result<(), Fail> {
    let parts = drawn(rt, heap, relation, stream, expected)?;
    let commitments = committed(rt, heap, relation, key, &parts, expected)?;
    let mut work = work_area(heap, expected)?;
    check_challenge(
        rt,
        heap,
        relation,
        key,
        &parts,
        &commitments,
        Challenge::One,
        &mut work,
        &expected.first,
    )?;
    check_challenge(
        rt,
        heap,
        relation,
        key,
        &parts,
        &commitments,
        Challenge::Two,
        &mut work,
        &expected.second,
    )?;
    check_challenge(
        rt,
        heap,
        relation,
        key,
        &parts,
        &commitments,
        Challenge::Three,
        &mut work,
        &expected.third,
    )
}
