//! Worked cases of the definitions, each the contract of a function without a result.

ghost use Rattle.std.specs.Prelude.{◌≡◌, true, false, None, Some, [], ◌∷◌, Ok, Err};
ghost use Rattle.h26x_core.specs.declared.error.PacketError.TheVariants.{OutOfMemory, AvcUnitTooLong, ErrShortPacket};
ghost use Rattle.h26x_receiver.specs.Sequenced.{answer_by_missing, skip_answer, expected_after_skip, is_run_kept};
ghost use Rattle.h26x_receiver.specs.Delivery.{IsNearPlace, IsNextPlace, IsWantOrTooLong, NoneIsRefused};

use crate::received::Received;

/// What is answered for a packet that was taken.
pub fn answers_of_taken_packets()
    ensures in_order { answer_by_missing 0 false ≡ Received.InOrder }
    ensures gap { answer_by_missing 1 false ≡ Received.Gap 1 }
    ensures too_long { answer_by_missing 1 true ≡ Received.TooLong 1 }
{}

/// A number that bears nothing, where 65535 is expected, or none: in order, at the furthest gap, and
/// half of the circle ahead, which is late.
pub fn numbers_skipped()
    ensures in_order { skip_answer (Some 65535) 65535 ≡ Received.InOrder }
    ensures gap { skip_answer (Some 65535) 32766 ≡ Received.Gap 32767 }
    ensures half { skip_answer (Some 65535) 32767 ≡ Received.Late 32768 }
    ensures twice { skip_answer (Some 65535) 65534 ≡ Received.Late 1 }
    ensures first { skip_answer None 40000 ≡ Received.InOrder }
    ensures next { expected_after_skip (Some 65535) 65535 ≡ Some 0 }
    ensures next_of_gap { expected_after_skip (Some 65535) 32766 ≡ Some 32767 }
    ensures next_of_late { expected_after_skip (Some 65535) 32767 ≡ Some 65535 }
    ensures run_in_order { is_run_kept (Some 65535) 65535 ≡ true }
    ensures run_of_gap { is_run_kept (Some 65535) 32766 ≡ false }
    ensures run_of_late { is_run_kept (Some 65535) 32767 ≡ true }
    ensures run_of_first { is_run_kept None 40000 ≡ false }
{}

/// Up to half of the circle ahead is next, and up to half of it behind is near.
pub fn places_at_the_edges()
    ensures next { IsNextPlace (Some 1) 32768 }
    ensures half_ahead { IsNextPlace (Some 1) 32769 → ⊥ }
    ensures not_behind { IsNextPlace (Some 1) 0 → ⊥ }
    ensures ahead { IsNearPlace (Some 1) 32768 }
    ensures behind { IsNearPlace (Some 32769) 1 }
    ensures further_behind { IsNearPlace (Some 32769) 0 → ⊥ }
    ensures any_first { IsNextPlace None 40000 }
{}

/// A refusal that isn't for what a packet is.
pub fn refusals_for_want()
    ensures memory { IsWantOrTooLong false (Err OutOfMemory) }
    ensures none_refused { NoneIsRefused (Ok Received.InOrder ∷ Ok (Received.Gap 1) ∷ []) }
    ensures one_refused { NoneIsRefused (Ok Received.InOrder ∷ Err OutOfMemory ∷ []) → ⊥ }
    ensures too_long { IsWantOrTooLong true (Err AvcUnitTooLong) }
    ensures not_without_lengths { IsWantOrTooLong false (Err AvcUnitTooLong) → ⊥ }
    ensures not_for_what_it_is { IsWantOrTooLong true (Err ErrShortPacket) → ⊥ }
{}
