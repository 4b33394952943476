// Strangers at the small weight statement: who holds no key can be ready for two of the three challenges, and gets a no to the third.
use crate::cases::{WRONG_IMAGE, WRONG_MASK, WRONG_SHAPE};
use crate::digits;
use crate::expected::Stranger;
use crate::judged::verdict;
use messages::challenge::Challenge;
use statements::given::Given;
use std::process::Abort;
use std::test::Fail;
use weight_statement::weight::Weight;

fn check_stranger(rt: &impl Abort, stranger: &Stranger) -> Result<(), Fail> {
    let weight = Weight::new(Given {
        modulus: 5,
        rows: 1,
        columns: 4,
        bound: 2,
        matrix: &[1, 2, 3, 4],
        target: &[0],
    })?;
    let text = stranger.commitments;
    let commitments = digits::bytes::<105>(text);
    let mut work = [0; 4];
    let text = stranger.first;
    let message = digits::bytes::<92>(text);
    assert_eq!(rt;
        verdict(&weight, &commitments, Challenge::One, &message, &mut work),
        stranger.first_verdict
    );
    let text = stranger.second;
    let message = digits::bytes::<95>(text);
    assert_eq!(rt;
        verdict(&weight, &commitments, Challenge::Two, &message, &mut work),
        stranger.second_verdict
    );
    let text = stranger.third;
    let message = digits::bytes::<95>(text);
    assert_eq!(rt;
        verdict(&weight, &commitments, Challenge::Three, &message, &mut work),
        stranger.third_verdict
    );
    Ok(())
}

#[test]
fn wrong_image(rt: HostRuntime) -> Result<(), Fail> {
    check_stranger(&rt, &WRONG_IMAGE)
}

#[test]
fn wrong_shape(rt: HostRuntime) -> Result<(), Fail> {
    check_stranger(&rt, &WRONG_SHAPE)
}

#[test]
fn wrong_mask(rt: HostRuntime) -> Result<(), Fail> {
    check_stranger(&rt, &WRONG_MASK)
}
