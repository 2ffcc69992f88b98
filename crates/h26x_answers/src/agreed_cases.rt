//! Worked cases of what two ends agree on and of declared formats, which the checker computes. Each is
//! the contract of a function without a result.

ghost use Rattle.std.specs.Prelude.{◌≡◌, None, Some, true, false, codes, [], ◌∷◌};
ghost use Rattle.h26x_answers.specs.Agreed as agreed;
ghost use Rattle.h26x_answers.specs.DeclaredFormats as declared;
ghost use Rattle.h26x_answers.specs.AnswersH264 as h264;
ghost use Rattle.h26x_answers.specs.declared.answer.AnswerRules.TheVariants.{Rfc, Webrtc};
ghost use Rattle.h26x_answers.specs.declared.direction.Direction.TheVariants.{SendRecv, SendOnly, RecvOnly};
ghost use Rattle.h26x_answers.specs.declared.agreed.AgreedSets.TheVariants.{InBand, Told, ToldOfLevel};

/// The level of H.264 from one end to another (RFC 6184, section 8.1, level-asymmetry-allowed), of ends
/// of level 3.1 and 5.2: both ways, where both allow it, what the receiver takes, and else the lower
/// one; of who sends or receives alone the lower one, whatever they allow.
pub fn levels_to_use()
    ensures own_levels { agreed.level_to_use SendRecv (record {
      values = None ∷ None ∷ None ∷ None ∷ None ∷ None ∷ None ∷ None ∷ None ∷ None ∷ None ∷ None
          ∷ None ∷ Some (codes "1") ∷ [];
      others = [];
    }) (record {
      values = None ∷ None ∷ None ∷ None ∷ None ∷ None ∷ None ∷ None ∷ None ∷ None ∷ None ∷ None
          ∷ None ∷ Some (codes "1") ∷ [];
      others = [];
    }) (record { profile_idc = 66; profile_iop = 0xe0; level_idc = 31 })
        (record { profile_idc = 66; profile_iop = 0xe0; level_idc = 52 }) ≡ 104 }
    ensures one_level { agreed.level_to_use SendRecv (record { values = []; others = [] })
        (record { values = []; others = [] })
        (record { profile_idc = 66; profile_iop = 0xe0; level_idc = 31 })
        (record { profile_idc = 66; profile_iop = 0xe0; level_idc = 52 }) ≡ 62 }
    ensures sends_up_to_theirs { agreed.level_to_use SendOnly (record { values = []; others = [] })
        (record { values = []; others = [] })
        (record { profile_idc = 66; profile_iop = 0xe0; level_idc = 52 })
        (record { profile_idc = 66; profile_iop = 0xe0; level_idc = 31 }) ≡ 62 }
    ensures sends_its_own { agreed.level_to_use SendOnly (record {
      values = None ∷ None ∷ None ∷ None ∷ None ∷ None ∷ None ∷ None ∷ None ∷ None ∷ None ∷ None
          ∷ None ∷ Some (codes "1") ∷ [];
      others = [];
    }) (record {
      values = None ∷ None ∷ None ∷ None ∷ None ∷ None ∷ None ∷ None ∷ None ∷ None ∷ None ∷ None
          ∷ None ∷ Some (codes "1") ∷ [];
      others = [];
    }) (record { profile_idc = 66; profile_iop = 0xe0; level_idc = 31 })
        (record { profile_idc = 66; profile_iop = 0xe0; level_idc = 52 }) ≡ 62 }
    ensures receives_up_to_its_own { agreed.level_to_use RecvOnly (record {
      values = None ∷ None ∷ None ∷ None ∷ None ∷ None ∷ None ∷ None ∷ None ∷ None ∷ None ∷ None
          ∷ None ∷ Some (codes "1") ∷ [];
      others = [];
    }) (record {
      values = None ∷ None ∷ None ∷ None ∷ None ∷ None ∷ None ∷ None ∷ None ∷ None ∷ None ∷ None
          ∷ None ∷ Some (codes "1") ∷ [];
      others = [];
    }) (record { profile_idc = 66; profile_iop = 0xe0; level_idc = 52 })
        (record { profile_idc = 66; profile_iop = 0xe0; level_idc = 31 }) ≡ 62 }
    ensures receives_theirs { agreed.level_to_use RecvOnly (record { values = []; others = [] })
        (record { values = []; others = [] })
        (record { profile_idc = 66; profile_iop = 0xe0; level_idc = 31 })
        (record { profile_idc = 66; profile_iop = 0xe0; level_idc = 52 }) ≡ 62 }
{}

/// Where parameter sets of H.264 are (RFC 6184, section 8.1): those that are told, at the sender's
/// level alone; where the receiver wants them in band, or none are told, in the stream; at another
/// level those of levels, where the receiver uses them.
pub fn sets_to_use()
    ensures told { agreed.sets_to_use (record {
      values = None ∷ None ∷ None ∷ None ∷ None ∷ None ∷ None ∷ None ∷ None
          ∷ Some (codes "Z0I=") ∷ [];
      others = [];
    }) (record { values = []; others = [] }) 62 62 ≡ Told }
    ensures of_another_level { agreed.sets_to_use (record {
      values = None ∷ None ∷ None ∷ None ∷ None ∷ None ∷ None ∷ None ∷ None
          ∷ Some (codes "Z0I=") ∷ [];
      others = [];
    }) (record { values = []; others = [] }) 60 62 ≡ InBand }
    ensures none_told { agreed.sets_to_use (record { values = []; others = [] })
        (record { values = []; others = [] }) 62 62 ≡ InBand }
    ensures in_band { agreed.sets_to_use (record {
      values = None ∷ None ∷ None ∷ None ∷ None ∷ None ∷ None ∷ None ∷ None
          ∷ Some (codes "Z0I=") ∷ [];
      others = [];
    }) (record {
      values = None ∷ None ∷ None ∷ None ∷ None ∷ None ∷ None ∷ None ∷ None ∷ None ∷ None ∷ None
          ∷ Some (codes "1") ∷ [];
      others = [];
    }) 62 62 ≡ InBand }
    ensures of_level { agreed.sets_to_use (record {
      values = None ∷ None ∷ None ∷ None ∷ None ∷ None ∷ None ∷ None ∷ None ∷ None
          ∷ Some (codes "42e01e:Z0I=") ∷ [];
      others = [];
    }) (record {
      values = None ∷ None ∷ None ∷ None ∷ None ∷ None ∷ None ∷ None ∷ None ∷ None ∷ None
          ∷ Some (codes "1") ∷ [];
      others = [];
    }) 60 62 ≡ ToldOfLevel }
    ensures unused_of_level { agreed.sets_to_use (record {
      values = None ∷ None ∷ None ∷ None ∷ None ∷ None ∷ None ∷ None ∷ None ∷ None
          ∷ Some (codes "42e01e:Z0I=") ∷ [];
      others = [];
    }) (record { values = []; others = [] }) 60 62 ≡ InBand }
{}

/// Streams of H.265 and H.266: the highest level that the receiver takes, and sets that are told where
/// all kinds of them are.
pub fn streams_by_level()
    ensures h265 { agreed.h265_stream (record {
      values = None ∷ None ∷ None ∷ None ∷ None ∷ None ∷ None ∷ None ∷ None ∷ None
          ∷ Some (codes "QAE=") ∷ Some (codes "QgE=") ∷ Some (codes "RAE=") ∷ [];
      others = [];
    }) (record {
      values = None ∷ None ∷ None ∷ Some (codes "93") ∷ None ∷ None ∷ None ∷ None
          ∷ Some (codes "120") ∷ [];
      others = [];
    }) ≡ Some (record { level = 120; mode = None; sets = Told }) }
    ensures h265_without_pps { agreed.h265_stream (record {
      values = None ∷ None ∷ None ∷ None ∷ None ∷ None ∷ None ∷ None ∷ None ∷ None
          ∷ Some (codes "QAE=") ∷ Some (codes "QgE=") ∷ [];
      others = [];
    }) (record { values = []; others = [] })
        ≡ Some (record { level = 93; mode = None; sets = InBand }) }
    ensures h266 { agreed.h266_stream (record {
      values = None ∷ None ∷ None ∷ None ∷ None ∷ None ∷ None ∷ None ∷ None ∷ None ∷ None ∷ None
          ∷ Some (codes "AHk=") ∷ Some (codes "AIE=") ∷ [];
      others = [];
    }) (record {
      values = None ∷ None ∷ None ∷ None ∷ Some (codes "67") ∷ [];
      others = [];
    }) ≡ Some (record { level = 67; mode = None; sets = Told }) }
{}

/// Declared formats that an end takes: up to the highest level that it receives, of its profile, and
/// with the buffer that they ask for; by WebRTC's rules also of the constrained profile of its own.
#[tactic(auto, unfolding(hex::specs::Hex::decode_pairs))]
pub fn declared_formats()
    ensures h264_at_the_highest { declared.h264_takes Rfc (record {
      values = Some (codes "42e028") ∷ [];
      others = [];
    }) (record {
      values = Some (codes "42e01f") ∷ Some (codes "e028") ∷ [];
      others = [];
    }) ≡ true }
    ensures h264_above { declared.h264_takes Rfc (record {
      values = Some (codes "42e029") ∷ [];
      others = [];
    }) (record {
      values = Some (codes "42e01f") ∷ Some (codes "e028") ∷ [];
      others = [];
    }) ≡ false }
    ensures h264_constrained { declared.h264_takes Rfc (record {
      values = Some (codes "640c1f") ∷ [];
      others = [];
    }) (record { values = Some (codes "64001f") ∷ []; others = [] }) ≡ false }
    ensures h264_webrtc { declared.h264_takes Webrtc (record {
      values = Some (codes "640c1f") ∷ [];
      others = [];
    }) (record { values = Some (codes "64001f") ∷ []; others = [] }) ≡ true }
    ensures h265_at_the_highest { declared.h265_takes Rfc (record {
      values = None ∷ None ∷ None ∷ Some (codes "120") ∷ [];
      others = [];
    }) (record {
      values = None ∷ None ∷ None ∷ Some (codes "93") ∷ None ∷ None ∷ None ∷ None
          ∷ Some (codes "120") ∷ [];
      others = [];
    }) ≡ true }
    ensures h265_above { declared.h265_takes Rfc (record {
      values = None ∷ None ∷ None ∷ Some (codes "123") ∷ [];
      others = [];
    }) (record {
      values = None ∷ None ∷ None ∷ Some (codes "93") ∷ None ∷ None ∷ None ∷ None
          ∷ Some (codes "120") ∷ [];
      others = [];
    }) ≡ false }
    ensures h266_fits { declared.h266_takes (record {
      values = None ∷ None ∷ None ∷ None ∷ None ∷ None ∷ None ∷ None ∷ None ∷ None ∷ None ∷ None
          ∷ None ∷ None ∷ None ∷ None ∷ None ∷ Some (codes "1") ∷ Some (codes "9000") ∷ [];
      others = [];
    }) (record {
      values = None ∷ None ∷ None ∷ None ∷ None ∷ None ∷ None ∷ None ∷ None ∷ None ∷ None ∷ None
          ∷ None ∷ None ∷ None ∷ None ∷ None ∷ None ∷ None ∷ Some (codes "9000") ∷ [];
      others = [];
    }) ≡ true }
    ensures h266_no_room { declared.h266_takes (record {
      values = None ∷ None ∷ None ∷ None ∷ None ∷ None ∷ None ∷ None ∷ None ∷ None ∷ None ∷ None
          ∷ None ∷ None ∷ None ∷ None ∷ None ∷ Some (codes "1") ∷ Some (codes "9000") ∷ [];
      others = [];
    }) (record {
      values = None ∷ None ∷ None ∷ None ∷ None ∷ None ∷ None ∷ None ∷ None ∷ None ∷ None ∷ None
          ∷ None ∷ None ∷ None ∷ None ∷ None ∷ None ∷ None ∷ Some (codes "8999") ∷ [];
      others = [];
    }) ≡ false }
{}

/// Whether an answer may tell our parameter sets (RFC 6184, section 8.2.2), at level 3.1 of both: to
/// High by High it may; to Constrained High by High, as WebRTC's peers take it, it may not, since they
/// are of another profile than the answer says.
pub fn sets_of_the_profile()
    ensures same { (h264.terms_at (record { values = []; others = [] }) false
        (record { profile_idc = 100; profile_iop = 0; level_idc = 31 })
        (record { profile_idc = 100; profile_iop = 0; level_idc = 31 })
        (record { profile_idc = 100; profile_iop = 0; level_idc = 31 })).sets ≡ true }
    ensures constrained { (h264.terms_at (record { values = []; others = [] }) false
        (record { profile_idc = 100; profile_iop = 0x0c; level_idc = 31 })
        (record { profile_idc = 100; profile_iop = 0; level_idc = 31 })
        (record { profile_idc = 100; profile_iop = 0x0c; level_idc = 31 })).sets ≡ false }
    ensures of_levels { (h264.terms_at (record {
      values = None ∷ Some (codes "0028") ∷ None ∷ None ∷ None ∷ None ∷ None ∷ None ∷ None ∷ None
          ∷ None ∷ Some (codes "1") ∷ [];
      others = [];
    }) true
        (record { profile_idc = 100; profile_iop = 0x0c; level_idc = 31 })
        (record { profile_idc = 100; profile_iop = 0; level_idc = 31 })
        (record { profile_idc = 100; profile_iop = 0x0c; level_idc = 31 })).level_sets ≡ false }
{}
