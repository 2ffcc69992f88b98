//! Laws of header words and of pieces. Each is the contract of a function without a result.

ghost use Rattle.std.specs.Prelude.{◌≡◌, ℕ, List, ◌+◌, ◌*◌, ◌<◌};
ghost use Rattle.h26x_core.specs.Word.{field, is_set};
ghost use Rattle.h26x_core.specs.H265Unit as h265;
ghost use Rattle.h26x_core.specs.H266Unit as h266;
ghost use Rattle.h26x_core.specs.Pieces.{ArePieces, HasNoPiece, pieces_of};

/// Bytes are pieces behind their lengths, and a rest without a whole piece, in one way.
pub fn one_list_of_pieces()
    ensures are { (bytes : List ℕ) → ArePieces bytes (pieces_of bytes).whole (pieces_of bytes).left
        × HasNoPiece (pieces_of bytes).left }
    ensures only { (bytes : List ℕ) (pieces : List (List ℕ)) (left : List ℕ) →
        ArePieces bytes pieces left → HasNoPiece left →
        pieces_of bytes ≡ record { whole = pieces; left = left } }
{}

/// The fields that an H.265 header's bytes bear are those of its word of two bytes (RFC 7798,
/// 1.1.4).
pub fn h265_header_word()
    ensures forbidden { (high low : ℕ) → low < 256 →
        h265.is_forbidden high ≡ is_set (high * 256 + low) 15 }
    ensures unit_type { (high low : ℕ) → low < 256 →
        h265.type_of high ≡ field (high * 256 + low) 14 9 }
    ensures layer { (high low : ℕ) → low < 256 →
        h265.layer_id high low ≡ field (high * 256 + low) 8 3 }
    ensures temporal { (high low : ℕ) → low < 256 →
        h265.temporal_id low ≡ field (high * 256 + low) 2 0 }
{}

/// The fields that an H.266 header's bytes bear are those of its word of two bytes (RFC 9328,
/// 1.1.4).
pub fn h266_header_word()
    ensures forbidden { (high low : ℕ) → low < 256 →
        h266.is_forbidden high ≡ is_set (high * 256 + low) 15 }
    ensures reserved { (high low : ℕ) → low < 256 →
        h266.is_reserved high ≡ is_set (high * 256 + low) 14 }
    ensures layer { (high low : ℕ) → low < 256 →
        h266.layer_id high ≡ field (high * 256 + low) 13 8 }
    ensures unit_type { (high low : ℕ) → low < 256 →
        h266.type_of low ≡ field (high * 256 + low) 7 3 }
    ensures temporal { (high low : ℕ) → low < 256 →
        h266.temporal_id low ≡ field (high * 256 + low) 2 0 }
{}
