//! Laws of the definitions, each the contract of a function without a result.

ghost use Rattle.std.specs.Prelude.{◌≡◌, ℕ, List, None, Some};
ghost use Rattle.h26x_reorder.specs.Rtp.{RtpBody};
ghost use Rattle.h26x_reorder.specs.Reordering.{ReordersWithinWindow};
ghost use Rattle.h26x_reorder.specs.BufferSteps.{BufferStep, AreNumbered, GivesOutThoseHeld};
ghost use Rattle.h26x_reorder.specs.ReorderBuffer.{BufferState, fresh_buffer, next_packet, without_first, IsReadyStep, IsNothingReady, reordered, IsPutInOrder, OfWindow};

/// Where each packet comes within the window, what a buffer gives out is what came, each once, in
/// order.
pub fn packets_are_put_in_order()
    ensures { (window : ℕ) → ReordersWithinWindow window }
{}

/// So it is by numbers, for a caller with a loop of its own over `push` and `pop`: of packets of any
/// list, numbered on from any number, that come reordered within the window, the buffer gives out
/// what came, each once, in the order of sending.
pub fn numbered_packets_are_put_in_order()
    ensures { (window : ℕ) (packets : List (ℕ × RtpBody)) →
        OfWindow window (IsPutInOrder window packets (reordered window packets)) }
{}

/// Whatever comes, however late or often, and whoever calls `pop_first` early: what a buffer gives out,
/// with what it holds at the end, are exactly the packets that were answered `Held`, each once, in the
/// order of their numbers.
pub fn those_held_are_given_out()
    ensures { (window : ℕ) (steps : List BufferStep) → AreNumbered steps →
        GivesOutThoseHeld (fresh_buffer window) steps }
{}

/// What may go of a buffer is what `pop` gives out, one after the other, until it gives out none.
pub fn packets_go_one_by_one()
    ensures step { (b : BufferState RtpBody) (p : ℕ × RtpBody) → next_packet b ≡ Some p →
        IsReadyStep b p (without_first b) }
    ensures end { (b : BufferState RtpBody) → next_packet b ≡ None → IsNothingReady b }
{}
