// The digest of bytes that come piece by piece, or at once.
ghost use Rattle.std.specs.Prelude.{◌≡◌, ℕ, ◌+◌, ◌^◌, ◌<◌, ◌≤◌, List, [], ◌++◌, length, MatchResult, OnErr, OnOk};
ghost use Rattle.sha256.specs.Hash.{bytes_of, sha256};
ghost use Rattle.sha256.specs.State.{digest_after, fed as fed_of};

use crate::limit::TooLong;
use crate::state::{Blocks, Sha256};
use std::array;

fn bytes_in(hash: [u32; 8]) -> [u8; 32]
    ensures { result ≡ bytes_of hash }
{
    array::from_fn(|i| hash[i / 4].to_be_bytes()[i % 4])
}

impl Sha256 {
    #[tactic(auto, using(crate::proofs::Digests::new_is), unfolding(crate::specs::State::digest_after))]
    pub fn new() -> Sha256
        ensures { ((m : List ℕ) → digest_after result m ≡ sha256 m) × (fed_of result ≡ 0) }
    {
        Sha256 {
            running: Blocks::start(),
            count: 0,
        }
    }

    // Bytes that keep the message within its limit.
    #[tactic(auto, using(crate::proofs::Digests::update_is), unfolding(crate::specs::State::digest_after))]
    fn take(&mut self, bytes: &[u8])
        requires { fed_of self.old + length bytes.now < 2 ^ 61 }
        ensures digest { (m : List ℕ) →
            digest_after self.new m ≡ digest_after self.old (bytes.now ++ m) }
        ensures fed { fed_of self.new ≡ fed_of self.old + length bytes.now }
    {
        self.running.absorb(bytes);
        self.count += bytes.len() as u64;
    }

    // More bytes of the message; a refusal changes nothing.
    pub fn update(&mut self, bytes: &[u8]) -> Result<(), TooLong>
        ensures limit { MatchResult result
            (λ _. fed_of self.old + length bytes.now < 2 ^ 61)
            (λ _. 2 ^ 61 ≤ fed_of self.old + length bytes.now) }
        ensures digest { OnOk result ((m : List ℕ) →
            digest_after self.new m ≡ digest_after self.old (bytes.now ++ m)) }
        ensures fed { OnOk result (fed_of self.new ≡ fed_of self.old + length bytes.now) }
        ensures refused { OnErr result (self.new ≡ self.old) }
    {
        if !self.has_room(bytes.len()) {
            return Err(TooLong);
        }
        self.take(bytes);
        Ok(())
    }

    // The hash value after the padding.
    #[tactic(auto, using(crate::proofs::Digests::finish_is), unfolding(crate::specs::State::digest_after))]
    fn last_hash(self) -> [u32; 8]
        ensures { bytes_of result ≡ digest_after self [] }
    {
        let mut running = self.running;
        running.pad(self.count);
        running.hash
    }

    pub fn finish(self) -> [u8; 32]
        ensures { result ≡ digest_after self [] }
    {
        bytes_in(self.last_hash())
    }
}

pub fn digest(message: &[u8]) -> Result<[u8; 32], TooLong>
    ensures { MatchResult result
        (λ d. (length message.now < 2 ^ 61) × (d ≡ sha256 message.now))
        (λ _. 2 ^ 61 ≤ length message.now) }
{
    let mut hasher = Sha256::new();
    hasher.update(message)?;
    Ok(hasher.finish())
}
