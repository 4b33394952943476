// The states of a console's line.

// A line holds one mask at a time; the number is that of the load that brought it.
#[derive(Clone, Copy, PartialEq, Eq, Debug)]
pub enum Line {
    Free,
    Loaded(u16),
    Committed(u16),
}
