//! Worked cases of copies. Each is the contract of a function without a result.

ghost use Rattle.std.specs.Prelude.{◌≡◌, ℕ, [], ◌∷◌};
ghost use Rattle.h26x_codes.specs.Copies.{with_first};

/// Two numbers, where there is room for three, for two and for one.
pub fn first_numbers()
    ensures more { with_first {A = ℕ} (1 ∷ 2 ∷ []) (7 ∷ 8 ∷ 9 ∷ []) ≡ 1 ∷ 2 ∷ 9 ∷ [] }
    ensures as_many { with_first {A = ℕ} (1 ∷ 2 ∷ []) (7 ∷ 8 ∷ []) ≡ 1 ∷ 2 ∷ [] }
    ensures fewer { with_first {A = ℕ} (1 ∷ 2 ∷ []) (7 ∷ []) ≡ 1 ∷ [] }
{}
