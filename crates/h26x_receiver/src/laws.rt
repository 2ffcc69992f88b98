//! Laws of the definitions, each the contract of a function without a result: for a caller with a
//! loop of its own over `receive`.

ghost use Rattle.std.specs.Prelude.{ℕ};
ghost use Rattle.h26x_model.specs.Receive.DepacketizerState.{Depacketization};
ghost use Rattle.h26x_receiver.specs.Delivery.{WritesNothingDamaged, WritesThoseOfCalls, WritesThoseTaken};
ghost use Rattle.h26x_receiver.specs.Sequenced.{SequencedDepacketization, KeepsRunWithin, SkipsInOrder};

use h26x_model::laws;

/// From a receiver for which any number may be the first: of what a network brings, nothing damaged
/// is written and told, but exactly the items of which each packet was taken.
pub fn nothing_damaged_is_written()
    ensures { (most : ℕ) (w : Depacketization) → WritesNothingDamaged most w }
{
    laws::nothing_is_damaged();
}

/// So where packets come in order and none is refused: what is written are the items of which each
/// packet came.
pub fn those_that_came_are_written()
    ensures { (most : ℕ) (w : Depacketization) → WritesThoseOfCalls most w }
{
    laws::nothing_is_damaged();
}

/// Whoever sent the packets, and whatever they are: what is written is that part of what all of them
/// would bring of which each packet was taken.
pub fn what_was_taken_is_written()
    ensures { (most : ℕ) (w : Depacketization) → WritesThoseTaken most w }
{
    laws::what_came_is_written();
}

/// Whatever packets come, a run that is within the limit stays within it.
pub fn runs_stay_within_the_limit()
    ensures { (most : ℕ) (s : SequencedDepacketization) → KeepsRunWithin most s }
{}

/// A number that came in order and bears nothing of the stream changes only what is expected next.
pub fn skipping_in_order_changes_only_the_number()
    ensures { (s : SequencedDepacketization) → SkipsInOrder s }
{}
