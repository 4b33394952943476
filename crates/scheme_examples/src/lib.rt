// The schemes run on examples: against SHA-256 on joined bytes, and against each other.
#![tactic(auto)]

use commitment::message::commit;
use commitment::part::Part;
use refusals::refusal::Refusal;
use schemes::hash::Hash;
use schemes::labelled::Labelled;

// Commits to one part under the hash scheme with a label of up to 16 bytes.
pub fn labelled_commitment(
    label: &[u8],
    coins: &[u8],
    message: &[u8],
) -> Result<[u8; 32], Refusal> {
    let mut scheme = Labelled::new(label, Hash::new())?;
    let mut commitment = [0u8; 32];
    commit(&mut scheme, coins, &[Part::Bytes(message)], &mut commitment)?;
    Ok(commitment)
}

// Commits to one part under the hash scheme.
pub fn plain_commitment(coins: &[u8], message: &[u8]) -> Result<[u8; 32], Refusal> {
    let mut commitment = [0u8; 32];
    commit(
        &mut Hash::new(),
        coins,
        &[Part::Bytes(message)],
        &mut commitment,
    )?;
    Ok(commitment)
}

#[cfg(test)]
mod tests {
    use super::*;
    use std::test::Fail;

    fn number(answer: Result<(), Refusal>) -> u8 {
        match answer {
            Ok(()) => 0,
            Err(refusal) => refusal.number(),
        }
    }

    // Coins 1 to 32, then the message "abc": the digest of 35 bytes.
    #[test]
    fn hash_scheme_is_the_digest_of_coins_and_message(rt: HostRuntime) -> Result<(), Fail> {
        let coins: [u8; 32] = [
            1, 2, 3, 4, 5, 6, 7, 8, 9, 10, 11, 12, 13, 14, 15, 16, 17, 18, 19, 20, 21, 22, 23, 24,
            25, 26, 27, 28, 29, 30, 31, 32,
        ];
        let joined: [u8; 35] = [
            1, 2, 3, 4, 5, 6, 7, 8, 9, 10, 11, 12, 13, 14, 15, 16, 17, 18, 19, 20, 21, 22, 23, 24,
            25, 26, 27, 28, 29, 30, 31, 32, 97, 98, 99,
        ];
        assert_eq!(rt; plain_commitment(&coins, b"abc")?, sha256::digest(&joined)?);
        Ok(())
    }

    #[test]
    fn label_and_message_commit_like_their_joined_bytes(rt: HostRuntime) -> Result<(), Fail> {
        let coins = [9u8; 32];
        assert_eq!(rt;
            labelled_commitment(b"line 1", &coins, b" asks")?,
            plain_commitment(&coins, b"line 1 asks")?
        );
        assert_eq!(rt;
            labelled_commitment(b"", &coins, b"asks")?,
            plain_commitment(&coins, b"asks")?
        );
        assert_eq!(rt;
            labelled_commitment(b"sixteen letters.", &coins, b"")?,
            plain_commitment(&coins, b"sixteen letters.")?
        );
        assert_ne!(rt;
            labelled_commitment(b"line 1", &coins, b"asks")?,
            labelled_commitment(b"line 2", &coins, b"asks")?
        );
        Ok(())
    }

    #[test]
    fn words_commit_like_their_bytes(rt: HostRuntime) -> Result<(), Fail> {
        let mut by_words = [0u8; 32];
        let mut by_bytes = [0u8; 32];
        let coins = [5u8; 32];
        commit(
            &mut Hash::new(),
            &coins,
            &[Part::Words(&[258, 772, 65535])],
            &mut by_words,
        )?;
        commit(
            &mut Hash::new(),
            &coins,
            &[Part::Bytes(&[1, 2, 3, 4, 255, 255])],
            &mut by_bytes,
        )?;
        assert_eq!(rt; by_words, by_bytes);
        Ok(())
    }

    #[test]
    fn every_refusal_is_reached(rt: HostRuntime) -> Result<(), Fail> {
        let mut out = [7u8; 32];
        let coins = [5u8; 32];
        assert_eq!(rt;
            number(commit(&mut Hash::new(), &coins[0..31], &[], &mut out)),
            53
        );
        assert_eq!(rt;
            number(commit(&mut Hash::new(), &coins, &[], &mut out[0..31])),
            54
        );
        assert_eq!(rt;
            number(commit(
                &mut Hash::new(),
                &coins,
                &[Part::Words(&[0; 32768]), Part::Bytes(&[1])],
                &mut out
            )),
            55
        );
        assert_eq!(rt; out, [7u8; 32]);
        assert_eq!(rt;
            number(commit(
                &mut Hash::new(),
                &coins,
                &[Part::Words(&[0; 32768])],
                &mut out
            )),
            0
        );
        match Labelled::new(b"seventeen letters", Hash::new()) {
            Ok(_) => Err(Fail::new("a label of 17 bytes was taken")),
            Err(refusal) => {
                assert_eq!(rt; refusal.number(), 52);
                Ok(())
            },
        }
    }
}
