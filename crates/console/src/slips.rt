// Slips (use-once tokens) for the masks on a console's lines. A slip is moved into commit, answer or burn; it is neither copied nor
// let go, and only this crate makes one or takes one apart.
ghost use Rattle.std.specs.Prelude.{◌≡◌};
ghost use Rattle.console_steps.specs.State.{slip_line, slip_state};
ghost use Rattle.console.specs.Told.{any_slip};

use console_steps::lines::Line;

// One struct over the line's state would be no plainer: each literal and pattern would hold a PhantomData as well.

// The line holds a mask, and nothing is committed to yet.
pub struct LoadedSlip {
    pub(crate) line: usize,
    pub(crate) count: u16,
}

// The commitments to the line's mask were written.
pub struct CommittedSlip {
    pub(crate) line: usize,
    pub(crate) count: u16,
}

// Either slip, to burn the mask.
pub enum AnySlip {
    Loaded(LoadedSlip),
    Committed(CommittedSlip),
}

impl AnySlip {
    pub(crate) fn line(&self) -> usize
        ensures { result ≡ slip_line (any_slip self.now) }
    {
        match self {
            AnySlip::Loaded(slip) => slip.line,
            AnySlip::Committed(slip) => slip.line,
        }
    }

    // The state that the slip's line has to be in.
    pub(crate) fn state(&self) -> Line
        ensures { result ≡ slip_state (any_slip self.now) }
    {
        match self {
            AnySlip::Loaded(slip) => Line::Loaded(slip.count),
            AnySlip::Committed(slip) => Line::Committed(slip.count),
        }
    }

    // Takes the slip apart.
    pub(crate) fn spend(self) {
        match self {
            AnySlip::Loaded(LoadedSlip { line: _, count: _ }) => {}
            AnySlip::Committed(CommittedSlip { line: _, count: _ }) => {}
        }
    }
}
