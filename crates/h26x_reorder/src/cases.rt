//! Worked cases of the definitions, each the contract of a function without a result.

ghost use Rattle.std.specs.Prelude.{◌≡◌, ℕ, List, true, false, None, Some, [], ◌∷◌, map};
ghost use Rattle.h26x_reorder.specs.Reordering.{empty_buffer, put, in_order, released, AreWithinWindow, IsReordered};
ghost use Rattle.h26x_reorder.specs.ReorderBuffer.{buffer_state, fresh_buffer, goes_straight, push_answer, next_packet, reordered};
ghost use Rattle.h26x_reorder.specs.BufferSteps.{Comes, GoesOut, steps_held, steps_out, AreInTurn};
ghost use Rattle.h26x_reorder.specs.Rtp.{rtp_body};

use crate::pushed::Pushed;

/// A packet needn't be held where none is and its number is the one that is due.
pub fn packets_that_go_straight()
    ensures due { goes_straight {A = List ℕ} (buffer_state 4 (Some 7) []) 7 ≡ true }
    ensures other { goes_straight {A = List ℕ} (buffer_state 4 (Some 7) []) 8 ≡ false }
    ensures held { goes_straight {A = List ℕ} (buffer_state 4 (Some 7) ((8, []) ∷ [])) 7 ≡ false }
    ensures first { goes_straight {A = List ℕ} (fresh_buffer 4) 7 ≡ false }
{}

/// Places that come in another order, one of them twice.
pub fn places_in_order()
    ensures none { in_order [] ≡ [] }
    ensures twice { put 2 (0 ∷ 2 ∷ []) ≡ 0 ∷ 2 ∷ [] }
    ensures order { in_order (2 ∷ 0 ∷ 1 ∷ 2 ∷ 5 ∷ []) ≡ 0 ∷ 1 ∷ 2 ∷ 5 ∷ [] }
{}

/// A window of 3: the place before two others is held for, and the one before three is not.
pub fn windows_at_the_edge()
    ensures held { AreWithinWindow 3 0 (2 ∷ 0 ∷ []) }
    ensures passed { AreWithinWindow 3 0 (3 ∷ 0 ∷ []) → ⊥ }
    ensures newest_counts { AreWithinWindow 3 0 (3 ∷ 1 ∷ 0 ∷ []) → ⊥ }
    ensures twice { AreWithinWindow 1 0 (4 ∷ 4 ∷ []) }
    ensures none { AreWithinWindow 0 0 [] }
{}

/// What a buffer with a window of 3 gives out: what waited, each once; behind a loss, what the window
/// has passed; not what comes later than that.
pub fn places_given_out()
    ensures none { released 3 empty_buffer [] ≡ [] }
    ensures just_held { released 3 empty_buffer (2 ∷ 0 ∷ 1 ∷ []) ≡ 0 ∷ 1 ∷ 2 ∷ [] }
    ensures just_passed { released 3 empty_buffer (1 ∷ 3 ∷ 0 ∷ []) ≡ 1 ∷ 3 ∷ [] }
    ensures twice { released 3 empty_buffer (0 ∷ 2 ∷ 2 ∷ 0 ∷ 1 ∷ 1 ∷ []) ≡ 0 ∷ 1 ∷ 2 ∷ [] }
    ensures loss { released 3 empty_buffer (0 ∷ 2 ∷ 3 ∷ 4 ∷ 5 ∷ []) ≡ 0 ∷ 2 ∷ 3 ∷ 4 ∷ 5 ∷ [] }
    ensures late { released 3 empty_buffer (0 ∷ 5 ∷ 9 ∷ 1 ∷ []) ≡ 0 ∷ 5 ∷ 9 ∷ [] }
{}

/// The same by numbers, with a window of 3: what waited, the numbers round 65535; behind a loss, what
/// the window has passed; nothing of no packets; at the end what is held, if fewer came than the
/// window has.
pub fn numbers_given_out()
    ensures none { reordered {A = List ℕ} 3 [] ≡ [] }
    ensures few { reordered {A = List ℕ} 3 ((8, 7 ∷ []) ∷ []) ≡ (8, 7 ∷ []) ∷ [] }
    ensures wrap { reordered {A = List ℕ} 3
        ((65535, 1 ∷ []) ∷ (1, 3 ∷ []) ∷ (0, 2 ∷ []) ∷ (2, 4 ∷ []) ∷ [])
        ≡ (65535, 1 ∷ []) ∷ (0, 2 ∷ []) ∷ (1, 3 ∷ []) ∷ (2, 4 ∷ []) ∷ [] }
    ensures twice { reordered {A = List ℕ} 3 ((5, []) ∷ (7, []) ∷ (7, []) ∷ (6, []) ∷ (5, []) ∷ [])
        ≡ (5, []) ∷ (6, []) ∷ (7, []) ∷ [] }
    ensures loss { reordered {A = List ℕ} 3 ((5, []) ∷ (7, []) ∷ (8, []) ∷ (9, []) ∷ [])
        ≡ (5, []) ∷ (7, []) ∷ (8, []) ∷ (9, []) ∷ [] }
    ensures first_late { reordered {A = List ℕ} 3 ((7, []) ∷ (5, []) ∷ (6, []) ∷ [])
        ≡ (5, []) ∷ (6, []) ∷ (7, []) ∷ [] }
    ensures passed { reordered {A = List ℕ} 3 ((8, []) ∷ (5, []) ∷ (6, []) ∷ [])
        ≡ (6, []) ∷ (8, []) ∷ [] }
{}

/// What is answered where 5 is due and 7 is held: at the edges of the half of the circle ahead.
pub fn answers_of_pushed_packets()
    ensures due { push_answer (buffer_state {A = List ℕ} 3 (Some 5) ((7, []) ∷ [])) 5 ≡ Pushed.Held }
    ensures twice { push_answer (buffer_state {A = List ℕ} 3 (Some 5) ((7, []) ∷ [])) 7 ≡ Pushed.Twice }
    ensures late { push_answer (buffer_state {A = List ℕ} 3 (Some 5) ((7, []) ∷ [])) 4 ≡ Pushed.Late 1 }
    ensures furthest { push_answer (buffer_state {A = List ℕ} 3 (Some 5) []) 32772 ≡ Pushed.Held }
    ensures half { push_answer (buffer_state {A = List ℕ} 3 (Some 5) []) 32773 ≡ Pushed.Late 32768 }
    ensures first { push_answer (fresh_buffer {A = List ℕ} 3) 40000 ≡ Pushed.Held }
{}

/// Steps of a buffer with a window of 3: a packet comes, and one behind it that is taken out before it
/// may go; then the one between comes late, one comes again, and one is held at the end.
pub fn steps_of_a_buffer()
    ensures held { map {B = ℕ} (λ p. p.0) (steps_held (fresh_buffer 3)
        (Comes (65535, rtp_body 0 false []) ∷ Comes (1, rtp_body 0 false []) ∷ GoesOut ∷ GoesOut
        ∷ Comes (0, rtp_body 0 false []) ∷ Comes (2, rtp_body 0 false [])
        ∷ Comes (2, rtp_body 0 false []) ∷ [])) ≡ 65535 ∷ 1 ∷ 2 ∷ [] }
    ensures out { map {B = ℕ} (λ p. p.0) (steps_out (fresh_buffer 3)
        (Comes (65535, rtp_body 0 false []) ∷ Comes (1, rtp_body 0 false []) ∷ GoesOut ∷ GoesOut
        ∷ Comes (0, rtp_body 0 false []) ∷ Comes (2, rtp_body 0 false [])
        ∷ Comes (2, rtp_body 0 false []) ∷ [])) ≡ 65535 ∷ 1 ∷ [] }
    ensures in_turn { AreInTurn ((65535, rtp_body 0 false []) ∷ (1, rtp_body 0 false [])
        ∷ (2, rtp_body 0 false []) ∷ []) }
    ensures far { AreInTurn ((0, rtp_body 0 false []) ∷ (32769, rtp_body 0 false []) ∷ []) → ⊥ }
{}

/// What may go where 5 is due: 5 itself, and with a window of 3 the first of 6 to 8, but not of 6 to 7.
pub fn packets_that_may_go()
    ensures due { next_packet (buffer_state {A = List ℕ} 3 (Some 5) ((5, []) ∷ [])) ≡ Some (5, []) }
    ensures passed { next_packet (buffer_state {A = List ℕ} 3 (Some 5) ((6, []) ∷ (8, []) ∷ []))
        ≡ Some (6, []) }
    ensures held { next_packet (buffer_state {A = List ℕ} 3 (Some 5) ((6, []) ∷ (7, []) ∷ [])) ≡ None }
    ensures none { next_packet (fresh_buffer {A = List ℕ} 3) ≡ None }
{}

/// Places at the edges of what a network brings: with a window of 3 one is 2 before the newest and not
/// 3, and 2^14 - 3 ahead of the one behind it and no more.
pub fn reordered_places()
    ensures none { IsReordered 3 [] }
    ensures held { IsReordered 3 (7 ∷ 5 ∷ []) }
    ensures passed { IsReordered 3 (7 ∷ 4 ∷ []) → ⊥ }
    ensures twice { IsReordered 3 (7 ∷ 7 ∷ []) }
    ensures ahead { IsReordered 3 (0 ∷ 16382 ∷ []) }
    ensures too_far { IsReordered 3 (0 ∷ 16383 ∷ []) → ⊥ }
{}
