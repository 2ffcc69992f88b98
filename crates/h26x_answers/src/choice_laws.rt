//! Laws of the layers that an answer chooses. Each is the contract of a function without a result.

ghost use Rattle.std.specs.Prelude.{◌≡◌, None, Some, codes, [], ◌∷◌};
ghost use Rattle.h26x_answers.specs.declared.answer.AnswerRules.{AnswerRules};
ghost use Rattle.h26x_answers.specs.AnswerLaws.{OfEachAnswer};
ghost use Rattle.h26x_answers.specs.AnswersH265 as h265_answers;
ghost use Rattle.h26x_answers.specs.AnswersH266 as h266_answers;
ghost use Rattle.h26x_answers.specs.OperationPoints as spec;
ghost use Rattle.h26x_sdp.specs.H265Rows as h265;

/// An answer takes no sub-layer and no output layer set that wasn't offered (RFC 7798, section 7.2.2;
/// RFC 9328, section 7.3.2.2), whether it says which or, as here, leaves it to the offer.
pub fn answers_take_offered_layers()
    ensures h265 { (by : AnswerRules) → OfEachAnswer (h265_answers.rules by)
        (λ offered own answer. spec.TakesOfferedH265 offered answer) }
    ensures h266 { OfEachAnswer h266_answers.rules
        (λ offered own answer. spec.TakesOfferedH266 offered answer) }
{}

/// The sub-layer of an answer to `sprop-sub-layer-id=2`: 1 where it says so, 2 where it says none, and
/// of an offer that says none the last, 6; and the output layer sets of H.266.
pub fn chosen_layers()
    ensures said { spec.chosen_sub_layer h265.rows (record {
      values = None ∷ None ∷ None ∷ None ∷ None ∷ None ∷ Some (codes "2") ∷ [];
      others = [];
    }) (record {
      values = None ∷ None ∷ None ∷ None ∷ None ∷ None ∷ None ∷ Some (codes "1") ∷ [];
      others = [];
    }) 7 6 ≡ Some 1 }
    ensures unsaid { spec.chosen_sub_layer h265.rows (record {
      values = None ∷ None ∷ None ∷ None ∷ None ∷ None ∷ Some (codes "2") ∷ [];
      others = [];
    }) (record { values = []; others = [] }) 7 6 ≡ Some 2 }
    ensures last { spec.chosen_sub_layer h265.rows (record { values = []; others = [] })
        (record { values = []; others = [] }) 7 6 ≡ Some 6 }
    ensures said_set { spec.chosen_layer_set (record { values = []; others = [] }) (record {
      values = None ∷ None ∷ None ∷ None ∷ None ∷ None ∷ None ∷ None ∷ Some (codes "3") ∷ [];
      others = [];
    }) ≡ Some 3 }
    ensures offered_set { spec.chosen_layer_set (record {
      values = None ∷ None ∷ None ∷ None ∷ None ∷ None ∷ Some (codes "1") ∷ [];
      others = [];
    }) (record { values = []; others = [] }) ≡ Some 1 }
{}
