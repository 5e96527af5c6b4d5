// What the judge replies to a file that it does not refuse.

// The length of the longest accepted beginning: short of all events, or all of them.
#[derive(Clone, Copy, PartialEq, Eq, Debug)]
pub enum Verdict {
    Illegal(u16),
    Accepted(u16),
}
