// The exchange's challenge and its number.
ghost use Rattle.std.specs.Prelude.{◌≡◌, Some, None, MatchResult};
ghost use Rattle.refusals.specs.declared.refusal.Refusal.TheVariants.{ChallengeOutOfRange};
ghost use Rattle.messages.specs.Contents.{challenge_number, challenge_of};

use refusals::refusal::Refusal;

#[derive(Clone, Copy, PartialEq, Eq, Debug)]
pub enum Challenge {
    One,
    Two,
    Three,
}

impl Challenge {
    pub fn number(self) -> u8
        ensures { result ≡ challenge_number self }
    {
        match self {
            Challenge::One => 1,
            Challenge::Two => 2,
            Challenge::Three => 3,
        }
    }
}

// The challenge with a number, where there is one.
impl TryFrom<u8> for Challenge {
    type Error = Refusal;

    ghost try_from_gives = { λ number outcome. MatchResult outcome (λ challenge. challenge_of number ≡ Some challenge) (λ refusal. (challenge_of number ≡ None) × (refusal ≡ ChallengeOutOfRange)) };

    fn try_from(number: u8) -> Result<Challenge, Refusal> {
        match number {
            1 => Ok(Challenge::One),
            2 => Ok(Challenge::Two),
            3 => Ok(Challenge::Three),
            _ => Err(Refusal::ChallengeOutOfRange),
        }
    }
}
