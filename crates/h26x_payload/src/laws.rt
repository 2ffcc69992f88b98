//! Laws of the units of payloads, for every format that cuts them by a rule of `h26x_cut`. Each is
//! the contract of a function without a result.

ghost use Rattle.std.specs.Prelude.{ℕ, List};
ghost use Rattle.h26x_model.specs.Payload.Format.{Format};
ghost use Rattle.h26x_model.specs.Send.Calls.{Call};
ghost use Rattle.h26x_model.specs.Where.{Where};
ghost use Rattle.h26x_payload.specs.Units.{CutsBy, AreNotEmpty, HaveNoMark, IsCutAgain, IsSentAgain};

use h26x_cut::ZeroRule;

/// Each unit of a payload is not empty and holds no start code (Annex B of the video standards).
pub fn units_are_whole()
    ensures not_empty { (f : Format) (rule : ZeroRule) → CutsBy f rule → (payload : List ℕ) →
        AreNotEmpty (f.units payload) }
    ensures no_code { (f : Format) (rule : ZeroRule) → CutsBy f rule → (payload : List ℕ) →
        HaveNoMark (f.units payload) }
{}

/// The written text of units is cut into these units: where the rule takes all zeros, of units of
/// which none but the last ends in one.
pub fn text_is_cut_into_its_units()
    ensures { (f : Format) (rule : ZeroRule) → CutsBy f rule → (units : List (List ℕ)) →
        IsCutAgain f rule units }
{}

/// Where nothing is dropped for its size, what calls like one sent makes the same packets when its
/// written text is sent in one such call. Where the rule takes all zeros, no unit sent but the last
/// may end in one.
pub fn sent_again()
    ensures { (f : Format) (rule : ZeroRule) → CutsBy f rule →
        (call : Call) (payloads units : List (List ℕ)) →
        IsSentAgain f rule call payloads units }
{}
