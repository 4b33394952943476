// A scheme that feeds a fixed label before the message to the scheme below.
ghost use Rattle.std.specs.Prelude.{◌≡◌, ◌≤◌, length, MatchResult};
ghost use Rattle.refusals.specs.Answers.{Answered};
ghost use Rattle.commitment.specs.Meaning.{Fresh, Fed};
ghost use Rattle.schemes.specs.Labels.{labelled, labelled_laws, label_fault, fitting, fitting_short};

use arrayvec::ArrayVec;
use commitment::scheme::Scheme;
use refusals::refusal::Refusal;

// Two labels over one scheme keep the commitments of two purposes apart.
#[derive(Drop)]
pub struct Labelled<S: Scheme> {
    label: ArrayVec<u8, 16>,
    below: S,
}

impl<S: Scheme> Scheme for Labelled<S> {
    ghost meaning = { λ s. labelled (fitting s.label.items (S.Scheme.meaning s.below)) (S.Scheme.meaning s.below) };

    ghost laws = { λ s. labelled_laws (fitting s.label.items (S.Scheme.meaning s.below)) (S.Scheme.meaning s.below) (fitting_short s.label.items (S.Scheme.meaning s.below)) (S.Scheme.laws s.below) };

    ghost state = { λ s. S.Scheme.state s.below };

    fn width(&self) -> usize {
        self.below.width()
    }

    fn limit(&self) -> usize {
        self.below.limit().saturating_sub(self.label.len())
    }

    fn room(&self) -> usize {
        self.below.room()
    }

    fn start(&mut self, coins: &[u8]) -> Result<(), Refusal> {
        self.below.start(coins)?;
        self.feed_label()
    }

    fn feed(&mut self, bytes: &[u8]) -> Result<(), Refusal> {
        self.below.feed(bytes)
    }

    fn finish(&mut self, out: &mut [u8]) -> Result<(), Refusal> {
        self.below.finish(out)?;
        self.feed_label()
    }
}

impl<S: Scheme> Labelled<S> {
    // Nothing is refused, since the label is cut to the room; the Result is that of the scheme below, handed on.
    fn feed_label(&mut self) -> Result<(), Refusal>
        requires { (S.Scheme.state self.old.below).room ≡ (S.Scheme.meaning self.old.below).limit }
        ensures outcome { MatchResult result (λ _. Fed (S.Scheme.state self.old.below) (fitting self.old.label.items (S.Scheme.meaning self.old.below)) (S.Scheme.state self.new.below)) (λ _. ⊥) }
        ensures kept { (S.Scheme.meaning self.new.below ≡ S.Scheme.meaning self.old.below) × (self.new.label ≡ self.old.label) }
    {
        let fitting = self.label.len().min(self.below.limit());
        self.below.feed(&self.label[..fitting])
    }
}

impl<S: Scheme + Drop> Labelled<S> {
    // Refuses a label above 16 bytes, or above the limit of the scheme below.
    pub fn new(label: &[u8], mut below: S) -> Result<Labelled<S>, Refusal>
        ensures { Answered (label_fault (S.Scheme.meaning below) label.now) result (λ s. (labelled (fitting s.label.items (S.Scheme.meaning s.below)) (S.Scheme.meaning s.below) ≡ labelled label.now (S.Scheme.meaning below)) × Fresh (labelled label.now (S.Scheme.meaning below)) (S.Scheme.state s.below)) (Unit {0}) }
    {
        let text = ArrayVec::try_from(label).map_err(|_| Refusal::LabelLength)?;
        if label.len() > below.limit() {
            return Err(Refusal::LabelLength);
        }
        let width = below.width();
        below.start(&[0; 128][..width])?;
        below.feed(label)?;
        Ok(Labelled { label: text, below })
    }
}
