//! Worked cases of the cutting grammar, which the checker computes.

ghost use Rattle.std.specs.Prelude.{◌≡◌, [], ◌∷◌};
ghost use Rattle.std.specs.List.{AllByRecursion};
ghost use Rattle.h26x_cut.specs.Cutting.{units_of, IsCutting, AreUnits, IsUnit, AreSeparable, EndsCodeAt, IsNextUnit};
ghost use Rattle.h26x_cut.specs.Lengths.{IsNextAvcUnit, BeginsWithUnit};
ghost use Rattle.h26x_cut.specs.declared.ZeroRule.TheVariants.{All, AtMostThree};

/// Zeros before a mark belong to the start code: all of them by one rule, three by the other.
pub fn zeros_before_a_mark()
    ensures all { units_of All (0 ∷ 0 ∷ 1 ∷ 0xaa ∷ 0 ∷ 0 ∷ 0 ∷ 0 ∷ 1 ∷ 0xbb ∷ 0 ∷ []) ≡ (0xaa ∷
        []) ∷ (0xbb ∷ 0 ∷ []) ∷ [] }
    ensures at_most_three { units_of AtMostThree (0 ∷ 0 ∷ 1 ∷ 0xaa ∷ 0 ∷ 0 ∷ 0 ∷ 0 ∷ 1 ∷ 0xbb ∷ 0 ∷
        []) ≡ (0xaa ∷ 0 ∷ []) ∷ (0xbb ∷ 0 ∷ []) ∷ [] }
{}

/// Without a start code the payload is one unit; what stands before the first one is dropped, and
/// so are empty units.
pub fn payloads_and_units()
    ensures one { units_of All (0 ∷ 0 ∷ 0 ∷ []) ≡ (0 ∷ 0 ∷ 0 ∷ []) ∷ [] }
    ensures none { units_of All (0 ∷ 0 ∷ 1 ∷ []) ≡ [] }
    ensures dropped { units_of AtMostThree (0xbb ∷ 0 ∷ 0 ∷ 1 ∷ 0xaa ∷ []) ≡ (0xaa ∷ []) ∷ [] }
    ensures empty { units_of All (0 ∷ 0 ∷ 1 ∷ 0 ∷ 0 ∷ 1 ∷ 0xaa ∷ []) ≡ (0xaa ∷ []) ∷ [] }
{}

/// A cutting by each rule: segments and the start codes between them, empty segments too.
pub fn cuttings()
    ensures all { IsCutting All
        (0xbb ∷ 0 ∷ 0 ∷ 1 ∷ 0xaa ∷ 0 ∷ 0 ∷ 0 ∷ 1 ∷ 0 ∷ 0 ∷ 1 ∷ 0xcc ∷ 0 ∷ [])
        ((0xbb ∷ []) ∷ (0xaa ∷ []) ∷ [] ∷ (0xcc ∷ 0 ∷ []) ∷ []) }
    ensures at_most_three { IsCutting AtMostThree (0 ∷ 0 ∷ 1 ∷ 0xaa ∷ 0 ∷ 0 ∷ 0 ∷ 0 ∷ 1 ∷ 0xbb ∷ [])
        ([] ∷ (0xaa ∷ 0 ∷ []) ∷ (0xbb ∷ []) ∷ []) }
    ensures one { IsCutting All [] ([] ∷ []) }
    ensures units { AreUnits All
        (0xbb ∷ 0 ∷ 0 ∷ 1 ∷ 0xaa ∷ 0 ∷ 0 ∷ 0 ∷ 1 ∷ 0 ∷ 0 ∷ 1 ∷ 0xcc ∷ 0 ∷ [])
        ((0xaa ∷ []) ∷ (0xcc ∷ 0 ∷ []) ∷ []) }
    ensures place { EndsCodeAt (0xaa ∷ 0 ∷ 0 ∷ 0 ∷ 1 ∷ []) 4 }
{}

/// Under the rule of all zeros every unit but the last must end in no zero, so that units are found
/// again.
pub fn separable_units()
    ensures units { AllByRecursion IsUnit ((0xaa ∷ []) ∷ (0 ∷ 0 ∷ []) ∷ []) }
    ensures all { AreSeparable All ((0xaa ∷ []) ∷ (0 ∷ 0xbb ∷ []) ∷ (0xcc ∷ 0 ∷ 0 ∷ []) ∷ []) }
    ensures not_first { AreSeparable All ((0xaa ∷ 0 ∷ []) ∷ (0xbb ∷ []) ∷ []) → ⊥ }
    ensures not_second { AreSeparable All ((0xaa ∷ []) ∷ (0xbb ∷ 0 ∷ []) ∷ (0xcc ∷ []) ∷ []) → ⊥ }
    ensures at_most_three { AreSeparable AtMostThree ((0xaa ∷ 0 ∷ []) ∷ (0xbb ∷ []) ∷ []) }
{}

/// Units by their places: from the front, from the end of one, and where none is left.
pub fn places()
    ensures first { IsNextUnit (units_of All) (0xbb ∷ 0 ∷ 0 ∷ 1 ∷ 0xaa ∷ 0xcc ∷ 0 ∷ 0 ∷ 0 ∷ 1 ∷
        0xaa ∷ []) 0 4 6 }
    ensures next { IsNextUnit (units_of All) (0xbb ∷ 0 ∷ 0 ∷ 1 ∷ 0xaa ∷ 0xcc ∷ 0 ∷ 0 ∷ 0 ∷ 1 ∷
        0xaa ∷ []) 6 10 11 }
    ensures zero { IsNextUnit (units_of AtMostThree) (0 ∷ 0 ∷ 1 ∷ 0xaa ∷ 0 ∷ 0 ∷ 0 ∷ 0 ∷ 1 ∷ []) 0 3 5 }
    ensures one { IsNextUnit (units_of All) (0xaa ∷ 0 ∷ []) 0 0 2 }
    ensures other { IsNextUnit (units_of All) (0 ∷ 0 ∷ 1 ∷ 0xaa ∷ 0 ∷ 0 ∷ 1 ∷ 0xaa ∷ []) 0 7 8 → ⊥ }
{}

/// Units behind lengths by their places: from the front, from the end of one, behind a length of 0, and
/// where fewer bytes are left than the length tells.
pub fn avc_places()
    ensures first { IsNextAvcUnit (0 ∷ 0 ∷ 0 ∷ 2 ∷ 0x67 ∷ 0x42 ∷ 0 ∷ 0 ∷ 0 ∷ 1 ∷ 0x65 ∷ []) 0 4 6 }
    ensures next { IsNextAvcUnit (0 ∷ 0 ∷ 0 ∷ 2 ∷ 0x67 ∷ 0x42 ∷ 0 ∷ 0 ∷ 0 ∷ 1 ∷ 0x65 ∷ []) 6 10 11 }
    ensures empty { IsNextAvcUnit (0 ∷ 0 ∷ 0 ∷ 0 ∷ 0 ∷ 0 ∷ 0 ∷ 1 ∷ 0x65 ∷ 0xaa ∷ []) 0 8 9 }
    ensures short { IsNextAvcUnit (0 ∷ 0 ∷ 0 ∷ 2 ∷ 0x65 ∷ []) 0 4 6 → ⊥ }
    ensures other { IsNextAvcUnit (0 ∷ 0 ∷ 0 ∷ 1 ∷ 0x65 ∷ 0 ∷ 0 ∷ 0 ∷ 1 ∷ 0x41 ∷ []) 0 9 10 → ⊥ }
{}
