//! What became of a packet that was given to a receiver.

ghost use Rattle.std.specs.Prelude.{◌≡◌};
ghost use Rattle.h26x_access_units.specs.Pushed as spec;

use h26x_reorder::{self, HeldPacket, NotHeldReason};

/// What became of a packet that was given to a receiver.
#[derive(Debug, Clone, Copy, PartialEq, Eq)]
pub enum Pushed {
    /// It waits for those before it, or to be taken, or was taken.
    Held,

    /// It is dropped: its number is so far behind the one that is due.
    Late(u16),

    /// It is dropped: a packet with its number waits, or was taken and is among the last 1024.
    Twice,

    /// It waits alone, in the place of another one: its number is too far from the one that is due, or
    /// more than a window, and than 100, ahead of those that wait.
    Stray,

    /// It is so far ahead too, and near the one that waited alone: both wait.
    Jumped,

    /// It follows the one that waited alone: the stream begins anew with both. What waited of the old
    /// numbers is dropped.
    Anew,

    /// It is dropped: more bytes wait than the limit. The caller is to take access units first.
    Full,
}

/// Why a packet that was given by value doesn't wait.
#[derive(Debug, Clone, Copy, PartialEq, Eq)]
pub enum NotPushedReason {
    /// Its number is so far behind the one that is due.
    Late(u16),

    /// A packet with its number waits, or was taken and is among the last 1024.
    Twice,

    /// More bytes wait than the limit. The caller is to take access units first.
    Full,

    /// There is no memory for one more place. It can be given again.
    OutOfMemory,
}

/// A packet that was given by value and doesn't wait, as it was given.
#[derive(Debug, Drop)]
pub struct NotPushed {
    /// The packet.
    pub packet: HeldPacket,
    /// Why it doesn't wait.
    pub reason: NotPushedReason,
}

/// Why a packet doesn't wait for which a reorder buffer answers this: where it would, memory lacks.
pub(crate) fn reason_of(answer: h26x_reorder::Pushed) -> NotPushedReason
    ensures { result ≡ spec.not_pushed_reason (spec.as_pushed answer) }
{
    match answer {
        h26x_reorder::Pushed::Held => NotPushedReason::OutOfMemory,
        h26x_reorder::Pushed::Late(count) => NotPushedReason::Late(count),
        h26x_reorder::Pushed::Twice => NotPushedReason::Twice,
    }
}

/// Why a packet doesn't wait, by what a reorder buffer says.
pub(crate) fn as_not_pushed(reason: NotHeldReason) -> NotPushedReason
    ensures { result ≡ spec.as_not_pushed reason }
{
    match reason {
        NotHeldReason::Late(count) => NotPushedReason::Late(count),
        NotHeldReason::Twice => NotPushedReason::Twice,
        NotHeldReason::OutOfMemory => NotPushedReason::OutOfMemory,
    }
}
