// Published examples of SHA-256: by the definition, and run.
#![tactic(auto)]

ghost use Rattle.std.specs.Prelude.{◌≡◌, ◌<◌, ◌≤◌, [], ◌∷◌, length};
ghost use Rattle.sha256.specs.Hash.{sha256 as definition};

// The definition, computed by the prover, gives the published digest of "abc".
pub fn definition_at_abc() -> bool
    ensures { definition (97 ∷ 98 ∷ 99 ∷ []) ≡
        0xba ∷ 0x78 ∷ 0x16 ∷ 0xbf ∷ 0x8f ∷ 0x01 ∷ 0xcf ∷ 0xea ∷ 0x41 ∷ 0x41 ∷ 0x40 ∷ 0xde ∷ 0x5d ∷ 0xae ∷ 0x22 ∷ 0x23 ∷
        0xb0 ∷ 0x03 ∷ 0x61 ∷ 0xa3 ∷ 0x96 ∷ 0x17 ∷ 0x7a ∷ 0x9c ∷ 0xb4 ∷ 0x10 ∷ 0xff ∷ 0x61 ∷ 0xf2 ∷ 0x00 ∷ 0x15 ∷ 0xad ∷ [] }
{
    true
}

#[cfg(test)]
mod tests {
    use hex::FromHexError;
    use sha256::{Sha256, TooLong, digest};
    use std::array;
    use std::test::Fail;

    // The digest that the text has in hexadecimal.
    fn written(text: &[u8; 64]) -> Result<[u8; 32], FromHexError> {
        let mut bytes = [0; 32];
        hex::decode_to_slice(text.as_slice(), &mut bytes)?;
        Ok(bytes)
    }

    #[test]
    fn empty(rt: HostRuntime) -> Result<(), Fail> {
        let published = written(
            b"e3b0c44298fc1c149afbf4c8996fb92427ae41e4649b934ca495991b7852b855",
        )?;
        assert_eq!(rt; digest(b"")?, published);
        Ok(())
    }

    #[test]
    fn one_block(rt: HostRuntime) -> Result<(), Fail> {
        let published = written(
            b"ba7816bf8f01cfea414140de5dae2223b00361a396177a9cb410ff61f20015ad",
        )?;
        assert_eq!(rt; digest(b"abc")?, published);
        Ok(())
    }

    #[test]
    fn two_blocks(rt: HostRuntime) -> Result<(), Fail> {
        let message = b"abcdbcdecdefdefgefghfghighijhijkijkljklmklmnlmnomnopnopq";
        let published = written(
            b"248d6a61d20638b8e5c026930c3e6039a33ce45964ff2167f6ecedd419db06c1",
        )?;
        assert_eq!(rt; digest(message)?, published);
        Ok(())
    }

    #[test]
    fn million(rt: HostRuntime) -> Result<(), Fail> {
        let mut hasher = Sha256::new();
        for _ in 0..1000usize {
            hasher.update(&[b'a'; 1000])?;
        }
        let published = written(
            b"cdc76e5c9914fb9281a1c7e284d73e67f1809a48a497200e046d39ccc7112cd0",
        )?;
        assert_eq!(rt; hasher.finish(), published);
        Ok(())
    }

    fn digest_in_two(message: &[u8], cut: usize) -> Result<[u8; 32], TooLong>
        requires { cut ≤ length message.now }
    {
        let mut hasher = Sha256::new();
        let (head, tail) = message.split_at(cut);
        hasher.update(head)?;
        hasher.update(tail)?;
        Ok(hasher.finish())
    }

    fn numbered() -> [u8; 130] {
        array::from_fn(|i| i as u8)
    }

    #[test]
    fn cut_in_two(rt: HostRuntime) -> Result<(), Fail> {
        let bytes = numbered();
        for len in 0..=bytes.len() {
            let message = &bytes[..len];
            for cut in 0..=len {
                assert_eq!(rt; digest_in_two(message, cut)?, digest(message)?);
            }
        }
        Ok(())
    }
}
