//! Worked cases of missing numbers that are asked for, each the contract of a function without a
//! result.

ghost use Rattle.std.specs.Prelude.{◌≡◌, ◌-◌, ◌^◌, [], ◌∷◌};
ghost use Rattle.h26x_access_units.specs.Nacks.{nack, nacks_now, nack_among, AreNumbersInOrder, nack_times_of, numbers_due, nacks_asked};

/// A number that may come by itself for 10 ticks, and then for 60, and is asked for twice.
pub fn numbers_asked_for()
    ensures early { numbers_due (nack_times_of 10 60 2) 16 (nack 2 7 0 ∷ []) ≡ [] }
    ensures first { numbers_due (nack_times_of 10 60 2) 17 (nack 2 7 0 ∷ []) ≡ 2 ∷ [] }
    ensures once { numbers_due (nack_times_of 10 60 2) 76 (nack 2 17 1 ∷ []) ≡ [] }
    ensures again { numbers_due (nack_times_of 10 60 2) 77 (nack 2 17 1 ∷ []) ≡ 2 ∷ [] }
    ensures twice { numbers_due (nack_times_of 10 60 2) 999 (nack 2 77 2 ∷ []) ≡ [] }
    ensures never { numbers_due (nack_times_of 0 0 0) 9 (nack 2 7 0 ∷ []) ≡ [] }
    ensures round { numbers_due (nack_times_of 10 60 2) 4 (nack 2 (2 ^ 32 - 6) 0 ∷ []) ≡ 2 ∷ [] }
    ensures each { numbers_due (nack_times_of 0 60 2) 30
        (nack 2 7 0 ∷ nack 3 7 1 ∷ nack 5 9 0 ∷ []) ≡ 2 ∷ 5 ∷ [] }
{}

/// What is known of numbers at the next call: those that are missing still, and others.
pub fn numbers_still_missing()
    ensures known { nacks_now 30 (nack 2 7 1 ∷ nack 3 7 1 ∷ nack 5 9 0 ∷ []) (3 ∷ 4 ∷ 5 ∷ [])
        ≡ nack 3 7 1 ∷ nack 4 30 0 ∷ nack 5 9 0 ∷ [] }
    ensures before { nacks_now 30 (nack 5 9 1 ∷ []) (65535 ∷ 5 ∷ [])
        ≡ nack 65535 30 0 ∷ nack 5 9 1 ∷ [] }
    ensures none { nacks_now 30 (nack 5 9 1 ∷ []) [] ≡ [] }
    ensures among { nack_among 30 3 (nack 2 7 1 ∷ nack 3 8 2 ∷ []) ≡ nack 3 8 2 }
    ensures other { nack_among 30 4 (nack 2 7 1 ∷ nack 3 8 2 ∷ []) ≡ nack 4 30 0 }
{}

/// Where there is room for one it is the first that is due.
pub fn numbers_that_count_as_asked_for()
    ensures one { nacks_asked (nack_times_of 0 60 2) 30 1 (nack 2 7 0 ∷ nack 3 7 0 ∷ [])
        ≡ nack 2 30 1 ∷ nack 3 7 0 ∷ [] }
    ensures second { nacks_asked (nack_times_of 0 60 2) 30 1 (nack 2 7 1 ∷ nack 3 7 0 ∷ [])
        ≡ nack 2 7 1 ∷ nack 3 30 1 ∷ [] }
    ensures all { nacks_asked (nack_times_of 0 60 2) 90 8 (nack 2 7 1 ∷ nack 3 7 0 ∷ [])
        ≡ nack 2 90 2 ∷ nack 3 90 1 ∷ [] }
    ensures none { nacks_asked (nack_times_of 0 60 2) 30 0 (nack 2 7 0 ∷ []) ≡ nack 2 7 0 ∷ [] }
{}

/// Numbers behind 65534 that go round, up to the last that is less than half of the circle ahead.
pub fn numbers_in_order()
    ensures round { AreNumbersInOrder 65534 0 (65535 ∷ 0 ∷ 3 ∷ []) }
    ensures last { AreNumbersInOrder 65534 0 (32765 ∷ []) }
    ensures none { AreNumbersInOrder 65534 9 [] }
{}
