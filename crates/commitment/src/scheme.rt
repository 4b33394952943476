// What every commitment scheme offers.
ghost use Rattle.std.specs.Prelude.{◌≡◌, [], length};
ghost use Rattle.refusals.specs.Answers.{Answered};
ghost use Rattle.commitment.specs.Meaning.{SchemeMeaning, SchemeLaws, SchemeState, Started, Fresh, Fed, start_fault, feed_fault, finish_fault};

use refusals::refusal::Refusal;

// A commitment scheme commits to a message under coins, which are random bytes that hide it.
// A refused call leaves the scheme as it was, and no call changes its meaning.
pub trait Scheme {
    ghost meaning: { Self → SchemeMeaning };

    ghost laws: { (scheme : Self) → SchemeLaws (meaning scheme) };

    ghost state: { Self → SchemeState };

    // The length of coins and of commitments, 1 to 128.
    fn width(&self) -> usize
        ensures { result ≡ (meaning self.now).width };

    // The length of the longest message.
    fn limit(&self) -> usize
        ensures { result ≡ (meaning self.now).limit };

    // How many bytes may still be fed.
    fn room(&self) -> usize
        ensures { result ≡ (state self.now).room };

    // Begins a commitment under these coins.
    fn start(&mut self, coins: &[u8]) -> Result<(), Refusal>
        ensures outcome { Answered (start_fault (meaning self.old) coins.now) result (λ _. Started (meaning self.old) coins.now (state self.new)) (self.new ≡ self.old) }
        ensures kept { meaning self.new ≡ meaning self.old };

    // Takes the next bytes of the message.
    fn feed(&mut self, bytes: &[u8]) -> Result<(), Refusal>
        ensures outcome { Answered (feed_fault (state self.old) (length bytes.now)) result (λ _. Fed (state self.old) bytes.now (state self.new)) (self.new ≡ self.old) }
        ensures kept { meaning self.new ≡ meaning self.old };

    // Writes the commitment to all bytes fed since the last start, and is as newly made.
    fn finish(&mut self, out: &mut [u8]) -> Result<(), Refusal>
        ensures outcome { Answered (finish_fault (meaning self.old) out.old) result (λ _. (out.new ≡ (state self.old).values []) × Fresh (meaning self.old) (state self.new)) ((out.new ≡ out.old) × (self.new ≡ self.old)) }
        ensures kept { meaning self.new ≡ meaning self.old };
}
