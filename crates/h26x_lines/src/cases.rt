//! Worked cases of the definitions, each the contract of a function without a result.

ghost use Rattle.std.specs.Prelude.{◌≡◌, true, false, [], ◌∷◌, codes};
ghost use Rattle.h26x_lines.specs.Digits.{are_digits, bytes_of};

/// Texts that are read: the high half first, in either case, and what is none.
pub fn texts_of_digits()
    ensures bytes { bytes_of (codes "0aF1") ≡ 0x0a ∷ 0xf1 ∷ [] }
    ensures none { bytes_of [] ≡ [] }
    ensures digits { are_digits (codes "0aF1") ≡ true }
    ensures other { are_digits (codes "0g") ≡ false }
{}
