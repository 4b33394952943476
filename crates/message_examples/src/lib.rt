// Messages run on examples: written, read back, and found wrong at known places.
#![tactic(auto)]

#[cfg(test)]
mod borders;
#[cfg(test)]
mod refusing;

#[cfg(test)]
mod tests {
    use answer_checks::check_answer;
    use messages::challenge::Challenge;
    use messages::fields::{Answer, Sizes, Triple};
    use messages::reader::{read_answer, read_commitments};
    use messages::writer::{write_commitments, write_first, write_second, write_third};
    use refusals::cause::Cause;
    use refusals::fault::{Fault, FaultKind};
    use std::test::Fail;
    use vectors::layout::Layout;

    // Two layers of two entries, a free part of one entry, a width of four bytes.
    const SMALL: Sizes = Sizes {
        layers: 8,
        free: 2,
        width: 4,
    };

    const LAYOUT: Layout = Layout {
        layer_count: 2,
        layer_len: 2,
    };

    fn commitments_fault(message: &[u8]) -> Option<Fault> {
        read_commitments(message, 2).err()
    }

    fn fault(kind: FaultKind, place: usize) -> Option<Fault> {
        Some(Fault { kind, place })
    }

    // What reader and checks say of an answer, at the modulus 7.
    fn check(message: &[u8], challenge: Challenge) -> Result<(), Cause> {
        let answer = read_answer(message, challenge, SMALL)?;
        check_answer(&answer, 7, LAYOUT)
    }

    #[test]
    fn commitments_of_width_32_are_read_back(rt: HostRuntime) -> Result<(), Fail> {
        let mut out = [9u8; 106];
        assert_eq!(rt;
            write_commitments(
                &mut out,
                Triple {
                    one: &[1; 32],
                    two: &[2; 32],
                    three: &[3; 32]
                }
            )?,
            105
        );
        assert_eq!(rt; out[105], 9);
        let read = read_commitments(&out[0..105], 32)?;
        assert!(rt;
            read.first.content == [1; 32].as_slice()
                && read.second.content == [2; 32].as_slice()
                && read.third.content == [3; 32].as_slice()
        );
        assert_eq!(rt;
            [read.first.offset, read.second.offset, read.third.offset],
            [0, 35, 70]
        );
        Ok(())
    }

    #[test]
    fn faults_have_their_places(rt: HostRuntime) {
        assert_eq!(rt;
            commitments_fault(&[1, 0, 2, 7, 7, 2, 0, 2, 8]),
            fault(FaultKind::CutOff, 5)
        );
        assert_eq!(rt;
            commitments_fault(&[1, 0, 2, 7, 7, 3, 0, 1, 8]),
            fault(FaultKind::WrongTag, 5)
        );
        assert_eq!(rt;
            commitments_fault(&[1, 0, 2, 7, 7, 2, 0, 1, 8]),
            fault(FaultKind::WrongLength, 5)
        );
        assert_eq!(rt;
            commitments_fault(&[1, 0, 2, 7, 7, 2, 0, 2, 8, 8, 3, 0, 2, 9, 9, 0]),
            fault(FaultKind::LeftOver, 15)
        );
    }

    #[test]
    fn answer_to_challenge_1(rt: HostRuntime) -> Result<(), Fail> {
        let mut out = [0u8; 36];
        let size = write_first(
            &mut out,
            &[1, 0, 0, 1],
            &[5, 6, 3, 4],
            &[1, 2, 3, 258],
            LAYOUT,
            b"two.",
            b"tres",
        );
        assert_eq!(rt; size, 36);
        let Answer::First {
            permuted_key,
            permuted_mask,
            coins_2,
            coins_3,
        } = read_answer(&out, Challenge::One, SMALL)?
        else {
            return Err(Fail::new("another answer"));
        };
        assert!(rt;
            permuted_key.content == [0, 6, 0, 5, 0, 3, 0, 4].as_slice()
                && permuted_mask.content == [0, 2, 0, 1, 0, 3, 1, 2].as_slice()
        );
        assert_eq!(rt;
            [
                permuted_key.offset,
                permuted_mask.offset,
                coins_2.offset,
                coins_3.offset,
            ],
            [0, 11, 22, 29]
        );
        // the last entry of the permuted mask is 258
        assert_eq!(rt;
            check(&out, Challenge::One),
            Err(Cause::ResidueNotBelowModulus { offset: 20 })
        );
        Ok(())
    }

    #[test]
    fn answer_to_challenge_2(rt: HostRuntime) -> Result<(), Fail> {
        let mut out = [0u8; 41];
        let size = write_second(
            &mut out,
            &[1, 0, 1, 1],
            &[5, 6, 3, 4],
            &[7],
            b"one.",
            b"tres",
        );
        assert_eq!(rt; size, 41);
        let Answer::Second {
            permutations,
            masked_key,
            masked_free,
            coins_1,
            coins_3,
        } = read_answer(&out, Challenge::Two, SMALL)?
        else {
            return Err(Fail::new("another answer"));
        };
        assert_eq!(rt;
            [
                permutations.offset,
                masked_key.offset,
                masked_free.offset,
                coins_1.offset,
                coins_3.offset,
            ],
            [0, 11, 22, 27, 34]
        );
        // the residue of the free part comes before the list that is no permutation
        assert_eq!(rt;
            check(&out, Challenge::Two),
            Err(Cause::ResidueNotBelowModulus { offset: 25 })
        );
        Ok(())
    }

    #[test]
    fn answer_to_challenge_3(rt: HostRuntime) -> Result<(), Fail> {
        let mut out = [0u8; 41];
        let size = write_third(
            &mut out,
            &[1, 0, 1, 1],
            &[5, 6, 3, 4],
            &[6],
            b"one.",
            b"two.",
        );
        assert_eq!(rt; size, 41);
        let Answer::Third {
            permutations,
            mask,
            free,
            coins_1,
            coins_2,
        } = read_answer(&out, Challenge::Three, SMALL)?
        else {
            return Err(Fail::new("another answer"));
        };
        assert_eq!(rt;
            [
                permutations.offset,
                mask.offset,
                free.offset,
                coins_1.offset,
                coins_2.offset,
            ],
            [0, 11, 22, 27, 34]
        );
        assert_eq!(rt;
            check(&out, Challenge::Three),
            Err(Cause::NoPermutation { layer: 1 })
        );
        Ok(())
    }
}
