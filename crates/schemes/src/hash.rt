// The hash scheme: SHA-256 of the coins followed by the message.
ghost use Rattle.std.specs.Prelude.{◌≡◌, ◌≤◌, length};
ghost use Rattle.sha256.specs.State.{fed as bytes_fed};
ghost use Rattle.commitment.specs.Meaning.{Started, Fresh};
ghost use Rattle.schemes.specs.Hashing.{hash, hash_laws, hash_state};

use commitment::scheme::Scheme;
use refusals::refusal::Refusal;
use sha256::Sha256;

const WIDTH: usize = 32;

const LIMIT: usize = 65536;

// The hasher has taken the coins, and of the message at most the limit.
#[derive(Clone, Copy)]
pub struct Hash {
    hasher: Sha256,
    ghost count: { (32 ≤ bytes_fed hasher) × (bytes_fed hasher ≤ 65568) },
}

// A hasher that has taken the coins.
fn started(coins: &[u8]) -> Hash
    requires { length coins.now ≡ 32 }
    ensures { Started hash coins.now (hash_state result.hasher) }
{
    let mut hasher = Sha256::new();
    hasher.update(coins).unwrap();
    Hash { hasher }
}

impl Hash {
    pub fn new() -> Hash
        ensures { Fresh hash (hash_state result.hasher) }
    {
        started(&[0; WIDTH])
    }
}

impl Scheme for Hash {
    ghost meaning = { λ _. hash };

    ghost laws = { λ _. hash_laws };

    ghost state = { λ s. hash_state s.hasher };

    fn width(&self) -> usize {
        WIDTH
    }

    fn limit(&self) -> usize {
        LIMIT
    }

    fn room(&self) -> usize {
        WIDTH + LIMIT - self.hasher.fed() as usize
    }

    fn start(&mut self, coins: &[u8]) -> Result<(), Refusal> {
        if coins.len() != WIDTH {
            return Err(Refusal::CoinsLength);
        }
        *self = started(coins);
        Ok(())
    }

    fn feed(&mut self, bytes: &[u8]) -> Result<(), Refusal> {
        if bytes.len() > self.room() {
            return Err(Refusal::MessageLimit);
        }
        self.hasher.update(bytes).unwrap();
        Ok(())
    }

    fn finish(&mut self, out: &mut [u8]) -> Result<(), Refusal> {
        if out.len() != WIDTH {
            return Err(Refusal::CommitmentLength);
        }
        let digest = self.hasher.finish();
        out.copy_from_slice(&digest);
        *self = Hash::new();
        Ok(())
    }
}
