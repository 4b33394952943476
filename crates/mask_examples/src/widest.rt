// A scheme of the largest width: its commitment is the coins, and it takes the empty message only.
ghost use Rattle.mask_examples.specs.Widest.{widest, widest_laws, widest_state};

use commitment::scheme::Scheme;
use refusals::refusal::Refusal;

#[derive(Clone, Copy)]
pub struct Widest {
    pub coins: [u8; 128],
}

impl Scheme for Widest {
    ghost meaning = { λ _. widest };

    ghost laws = { λ _. widest_laws };

    ghost state = { λ s. widest_state s.coins };

    fn width(&self) -> usize {
        128
    }

    fn limit(&self) -> usize {
        0
    }

    fn room(&self) -> usize {
        0
    }

    fn start(&mut self, coins: &[u8]) -> Result<(), Refusal> {
        if coins.len() != 128 {
            return Err(Refusal::CoinsLength);
        }
        self.coins.copy_from_slice(coins);
        Ok(())
    }

    fn feed(&mut self, bytes: &[u8]) -> Result<(), Refusal> {
        if bytes.len() > 0 {
            return Err(Refusal::MessageLimit);
        }
        Ok(())
    }

    fn finish(&mut self, out: &mut [u8]) -> Result<(), Refusal> {
        if out.len() != 128 {
            return Err(Refusal::CommitmentLength);
        }
        out.copy_from_slice(&self.coins);
        self.coins = [0; 128];
        Ok(())
    }
}
