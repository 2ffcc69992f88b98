//! Directions of media (RFC 8866, section 6.7), and the parameters that are usable in each.

ghost use Rattle.std.specs.Prelude.{◌≡◌};
ghost use Rattle.h26x_answers.specs.Directions as spec;

/// Which way media flows, of the end that writes the description (RFC 3264, sections 5.1 and 6.1).
#[derive(Debug, Clone, Copy, PartialEq, Eq, Default)]
pub enum Direction {
    /// `a=sendrecv`, and what isn't said. An end that says `a=inactive` describes the same.
    #[default]
    SendRecv,
    /// `a=sendonly`.
    SendOnly,
    /// `a=recvonly`.
    RecvOnly,
}

impl Direction {
    /// That of the other end: who sends alone answers who receives alone, and the other way round.
    pub fn opposite(self) -> Direction
        ensures { result ≡ spec.opposite self }
    {
        match self {
            Direction::SendRecv => Direction::SendRecv,
            Direction::SendOnly => Direction::RecvOnly,
            Direction::RecvOnly => Direction::SendOnly,
        }
    }
}

/// In which directions a parameter is usable, of the end that writes it (RFC 6184, section 8.2.2, table
/// 6; RFC 7798, section 7.2.2, table 1; RFC 9328, section 7.3.2.3, figure 11). Where it isn't, it's to
/// be ignored.
#[derive(Debug, Clone, Copy, PartialEq, Eq)]
pub enum Usage {
    /// In each: configuration, which of an end that sends alone is a property of its stream.
    Always,
    /// Where the end receives: what it can do as a receiver, and its choice of an operation point.
    Receiving,
    /// Where the end sends: properties of its stream, and its parameter sets.
    Sending,
    /// In both directions at once alone: whether each may have a level of its own.
    Both,
}

/// Whether a parameter is usable in a direction of the end that writes it.
pub(crate) fn is_usable(direction: Direction, usage: Usage) -> bool
    ensures { result ≡ spec.is_usable direction usage }
{
    match direction {
        Direction::SendRecv => true,
        Direction::SendOnly => matches!(usage, Usage::Always | Usage::Sending),
        Direction::RecvOnly => matches!(usage, Usage::Always | Usage::Receiving),
    }
}
