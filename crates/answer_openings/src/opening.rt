// Opening a commitment by coins and a message.
ghost use Rattle.std.specs.Prelude.{◌≡◌, ◌≤◌, length};
ghost use Rattle.std.specs.Result.{result_err};
ghost use Rattle.vectors.specs.Lists.{same};
ghost use Rattle.vectors.specs.Parts.{content as part_content};
ghost use Rattle.commitment.specs.Meaning.{Fresh};
ghost use Rattle.answer_openings.specs.Openings.{checked_cause};

use commitment::message::opens;
use commitment::scheme::Scheme;
use messages::fields::Field;
use refusals::cause::Cause;
use vectors::part::Part;

// A commitment with its number, and the coins that an answer shows for it.
#[derive(Clone, Copy)]
pub struct Shown<'a> {
    pub commitment: &'a [u8],
    // 1 to 3, as a cause of a no tells it
    pub number: usize,
    pub coins: &'a [u8],
}

impl<'a> Shown<'a> {
    pub fn new(commitment: &'a [u8], number: usize, coins: Field<'a>) -> Shown<'a>
        ensures { result ≡ record { commitment = commitment.entry; number = number; coins = coins.entry.content } }
    {
        Shown {
            commitment,
            number,
            coins: coins.content,
        }
    }

    // A commitment that is not opened is the cause of a no.
    pub fn check(self, opened: bool) -> Result<(), Cause>
        ensures { result_err result ≡ checked_cause self.entry opened }
    {
        if !opened {
            return Err(Cause::NotOpened {
                commitment: self.number,
            });
        }
        Ok(())
    }
}

// Says whether the commitment is this value.
pub fn has_value(shown: Shown, value: &[u8]) -> bool
    ensures { result ≡ same shown.entry.commitment.now value.now }
{
    shown.commitment == value
}

// Says whether the coins and the message open the commitment.
pub fn opens_by<S: Scheme>(scheme: &mut S, shown: Shown, text: Part) -> bool
    requires coins { length shown.coins.now ≡ (S.Scheme.meaning scheme.old).width }
    requires limit { length (part_content text) ≤ (S.Scheme.meaning scheme.old).limit }
    ensures value { result ≡ same shown.entry.commitment.now ((S.Scheme.meaning scheme.old).value shown.entry.coins.now (part_content text.entry)) }
    ensures fresh { Fresh (S.Scheme.meaning scheme.old) (S.Scheme.state scheme.new) }
    ensures kept { S.Scheme.meaning scheme.new ≡ S.Scheme.meaning scheme.old }
{
    opens(scheme, shown.commitment, shown.coins, &[text]).unwrap()
}
