// The states of an exchange's line. The commitments of a line lie in a table beside the states.
use messages::challenge::Challenge;

#[derive(Clone, Copy, PartialEq, Eq, Debug)]
pub enum LineState {
    Free,
    Opened,
    Challenged(Challenge),
}
