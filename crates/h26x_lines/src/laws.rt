//! Laws of texts of digits. Each is the contract of a function without a result.

ghost use Rattle.std.specs.Prelude.{◌≡◌, ℕ, List, true};
ghost use Rattle.hex.specs.Hex.{encode_lower, IsBytes};
ghost use Rattle.h26x_lines.specs.Digits.{are_digits, bytes_of};

/// What bytes are written as is a text of digits, and is read as these bytes.
pub fn what_is_written_is_read()
    ensures digits { (bytes : List ℕ) → IsBytes bytes → are_digits (encode_lower bytes) ≡ true }
    ensures bytes { (bytes : List ℕ) → IsBytes bytes → bytes_of (encode_lower bytes) ≡ bytes }
{}
