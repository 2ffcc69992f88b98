//! Laws of the cutting grammar. Each is the contract of a function without a result.

ghost use Rattle.std.specs.Prelude.{◌≡◌, ◌<◌, ◌+◌, ◌^◌, ◌++◌, ◌∷◌, [], ℕ, List, true, length, replicate};
ghost use Rattle.std.specs.List.{AllByRecursion};
ghost use Rattle.h26x_core.specs.Mark.{IsMark};
ghost use Rattle.h26x_core.specs.ByteStream.{annex_b, byte_stream};
ghost use Rattle.h26x_cut.specs.Cutting.{EndsCodeAt, IsCutting, cut_segments, AreUnits, IsUnit, AreSeparable, units_of};
ghost use Rattle.h26x_cut.specs.Lengths.{IsNextAvcUnit};

use crate::ZeroRule;

/// The marks of bytes are the places where `00 00 01` ends in them.
pub fn a_start_code_ends_at_a_mark()
    ensures mark { (bytes : List ℕ) (place : ℕ) → IsMark bytes place → EndsCodeAt bytes place }
    ensures code { (bytes : List ℕ) (place : ℕ) → EndsCodeAt bytes place → IsMark bytes place }
{}

/// A payload has one cutting under each rule, and so one list of units.
pub fn one_cutting()
    ensures is { (rule : ZeroRule) (payload : List ℕ) →
        IsCutting rule payload (cut_segments rule payload) }
    ensures only { (rule : ZeroRule) (payload : List ℕ) (a b : List (List ℕ)) →
        IsCutting rule payload a → IsCutting rule payload b → a ≡ b }
    ensures units { (rule : ZeroRule) (payload : List ℕ) →
        AreUnits rule payload (units_of rule payload) }
    ensures only_units { (rule : ZeroRule) (payload : List ℕ) (units : List (List ℕ)) →
        AreUnits rule payload units → units ≡ units_of rule payload }
{}

/// Every unit of a payload is not empty and holds no `00 00 01`.
pub fn units_are_whole()
    ensures { (rule : ZeroRule) (payload : List ℕ) (units : List (List ℕ)) →
        AreUnits rule payload units → AllByRecursion IsUnit units }
{}

/// The written text of units is cut into these units.
pub fn text_is_cut_into_its_units()
    ensures { (rule : ZeroRule) (units : List (List ℕ)) → AllByRecursion IsUnit units →
        AreSeparable rule units → AreUnits rule (annex_b units) units }
{}

/// Of units that are written behind lengths, from the end of some on the next is the first that isn't
/// empty.
pub fn units_behind_lengths_are_found()
    ensures { (before : List (List ℕ)) (empty : ℕ) (unit : List ℕ) (after : List (List ℕ)) →
        0 < length unit → length unit < 2 ^ 32 →
        let lengths = byte_stream true (replicate empty []) in
        let begin = length (byte_stream true before) + length lengths + 4 in
        IsNextAvcUnit (byte_stream true (before ++ (replicate empty [] ++ unit ∷ after)))
        (length (byte_stream true before)) begin (begin + length unit) }
{}
