//! Worked cases of definitions for every payload format. Each is the contract of a function
//! without a result.

ghost use Rattle.std.specs.Prelude.{◌≡◌, true, false, None, Some, [], ◌∷◌, length};
ghost use Rattle.h26x_core.specs.Mark.{IsMark};
ghost use Rattle.h26x_core.specs.Pieces.{ArePieces, HasNoPiece};
ghost use Rattle.h26x_core.specs.Sequence.{next_sequence_number, missing_count, distance_behind, is_late, is_expected};

/// A mark is the 01 of `00 00 01`, at the beginning of bytes and behind zeros.
pub fn marks()
    ensures first { IsMark (0x00 ∷ 0x00 ∷ 0x01 ∷ []) 2 }
    ensures behind_zeros { IsMark (0xaa ∷ 0x00 ∷ 0x00 ∷ 0x00 ∷ 0x01 ∷ 0xbb ∷ []) 4 }
    ensures one_zero { IsMark (0xaa ∷ 0x00 ∷ 0x01 ∷ []) 2 → ⊥ }
    ensures no_byte { IsMark (0x00 ∷ 0x00 ∷ []) 2 → ⊥ }
{}

/// Pieces behind their lengths, an empty one too, and what is left: nothing, a lone byte, or a
/// length past the end.
pub fn pieces()
    ensures nothing_left { ArePieces (0x00 ∷ 0x02 ∷ 0x67 ∷ 0xaa ∷ 0x00 ∷ 0x00 ∷ [])
        ((0x67 ∷ 0xaa ∷ []) ∷ [] ∷ []) [] }
    ensures byte_left { ArePieces (0x00 ∷ 0x02 ∷ 0x67 ∷ 0xaa ∷ 0x00 ∷ [])
        ((0x67 ∷ 0xaa ∷ []) ∷ []) (0x00 ∷ []) }
    ensures nothing { HasNoPiece [] }
    ensures lone_byte { HasNoPiece (0x00 ∷ []) }
    ensures past_the_end { HasNoPiece (0x00 ∷ 0x02 ∷ 0x67 ∷ []) }
    ensures empty_piece { HasNoPiece (0x00 ∷ 0x00 ∷ []) → ⊥ }
{}

/// Numbers go round: 0 is expected after 65535; 32767 ahead is a gap, and half of the circle is late.
pub fn numbers_go_round()
    ensures after { next_sequence_number 65535 ≡ 0 }
    ensures expected { is_expected (Some 0) 0 ≡ true }
    ensures other { is_expected (Some 0) 65535 ≡ false }
    ensures none_expected { is_expected None 0 ≡ false }
    ensures gap { missing_count (Some 65534) 1 ≡ 3 }
    ensures furthest { is_late (Some 1) 32768 ≡ false }
    ensures half { is_late (Some 1) 32769 ≡ true }
    ensures furthest_behind { distance_behind (Some 1) 32769 ≡ 32768 }
    ensures twice { distance_behind (Some 0) 65535 ≡ 1 }
    ensures first { is_late None 40000 ≡ false }
{}
