//! Worked cases of frame numbers of H.264, each the contract of a function without a result. Bytes are
//! written by the syntax of the standard: of the scaling lists one has its default, one 16 values, one
//! three, the last of them 0, and one 64.

ghost use Rattle.std.specs.Prelude.{◌≡◌, ℕ, List, true, false, None, Some, [], ◌∷◌};
ghost use Rattle.h26x_core.specs.declared.extra.CodecExtra.TheVariants as extras;
ghost use Rattle.h26x_access_units.specs.declared.frame_number.Numbering.TheVariants as numberings;
ghost use Rattle.h26x_access_units.specs.Bits.{payload_bytes, first_bit, behind_bits, code_of, unit_bits};
ghost use Rattle.h26x_access_units.specs.FrameNumber.{told, joined_numbering, next_scale, sps_numbering, frame_number, tells_no_loss, tells_none_lost};
ghost use Rattle.h26x_access_units.specs.LostPictures.{SentPicture, number_behind, number_behind_all, MayBeLost};
ghost use Rattle.h26x_access_units.specs.Content.{no_content, slice, slice_head};
ghost use Rattle.h26x_access_units.specs.Numbers.{numbers_of_none, begun_numbers, fresh_numbers, after_missing, after_last, begun_numbers_at};
ghost use Rattle.h26x_access_units.specs.Decoder.{fresh_decoder, decoder_after, head_after, long_key_after, is_behind_no_loss};
ghost use Rattle.h26x_access_units.specs.Decodable.{GivenUnit, known_numbering, known_head, has_long_key, IsBehindNoLoss};
ghost use Rattle.h26x_reorder.specs.Rtp.{rtp_body};
ghost use Rattle.h26x_access_units.specs.declared.decoder.DecoderState.{DecoderState};
ghost use Rattle.h26x_access_units.specs.declared.content.Content.{Content};

/// Of the bytes of a unit 3 behind two zeros is left out, wherever it comes, and what is less ends it.
pub fn bytes_of_a_unit()
    ensures kept { payload_bytes 1 1 (0x67 ∷ 0 ∷ 3 ∷ 0 ∷ 4 ∷ []) ≡ 0x67 ∷ 0 ∷ 3 ∷ 0 ∷ 4 ∷ [] }
    ensures left_out { payload_bytes 1 1 (0 ∷ 0 ∷ 3 ∷ 1 ∷ 0 ∷ 0 ∷ 3 ∷ 0 ∷ 0 ∷ 3 ∷ 3 ∷ [])
        ≡ 0 ∷ 0 ∷ 1 ∷ 0 ∷ 0 ∷ 0 ∷ 0 ∷ 3 ∷ [] }
    ensures stays { payload_bytes 1 1 (0 ∷ 0 ∷ 4 ∷ 0 ∷ 0 ∷ []) ≡ 0 ∷ 0 ∷ 4 ∷ 0 ∷ 0 ∷ [] }
    ensures ends { payload_bytes 1 1 (5 ∷ 0 ∷ 0 ∷ 1 ∷ 0x68 ∷ []) ≡ 5 ∷ 0 ∷ 0 ∷ [] }
    ensures ends_in_zeros { payload_bytes 1 1 (5 ∷ 0 ∷ 0 ∷ 2 ∷ []) ≡ 5 ∷ 0 ∷ 0 ∷ [] }
{}

/// Codes and the numbers that they are (9.1, table 9-2).
#[tactic(auto, unfolding(crate::specs::Bits::code_of, crate::specs::Bits::bits_number))]
pub fn codes_of_numbers()
    ensures zero { (code_of (unit_bits (0x80 ∷ []))).value ≡ 0 }
    ensures one { (code_of (unit_bits (0x40 ∷ []))).value ≡ 1 }
    ensures six { (code_of (unit_bits (0x38 ∷ []))).value ≡ 6 }
    ensures nine { (code_of (unit_bits (0x14 ∷ []))).value ≡ 9 }
    ensures largest { (code_of (unit_bits (0 ∷ 1 ∷ 0xff ∷ 0xfe ∷ []))).value ≡ 65534 }
    ensures none { (code_of (unit_bits [])).value ≡ 0xffffffff }
{}

/// What sequence parameter sets tell: frame numbers of 4 bits to 16, by each type of order count; not
/// those with gaps, of fields, or cut off.
#[tactic(auto, unfolding(crate::specs::Bits::code_of, crate::specs::Bits::bits_number))]
pub fn sets_that_tell_of_frame_numbers()
    ensures baseline { sps_numbering (0x67 ∷ 0x42 ∷ 0xc0 ∷ 0x1e ∷ 0xda ∷ 0x05 ∷ 0x07 ∷
        0xe4 ∷ []) ≡ told 4 false }
    ensures most { sps_numbering (0x67 ∷ 0x42 ∷ 0xc0 ∷ 0x1e ∷ 0x8d ∷ 0x68 ∷ 0x14 ∷ 0x1f ∷
        0x90 ∷ []) ≡ told 16 false }
    ensures over { sps_numbering (0x67 ∷ 0x42 ∷ 0xc0 ∷ 0x1e ∷ 0x8e ∷ 0x68 ∷ 0x14 ∷ 0x1f ∷
        0x90 ∷ []) ≡ numberings.Unusable }
    ensures gaps { sps_numbering (0x67 ∷ 0x42 ∷ 0xc0 ∷ 0x1e ∷ 0xda ∷ 0x85 ∷ 0x07 ∷ 0xe4 ∷ [])
        ≡ numberings.Unusable }
    ensures fields { sps_numbering (0x67 ∷ 0x42 ∷ 0xc0 ∷ 0x1e ∷ 0xda ∷ 0x05 ∷ 0x07 ∷ 0x92 ∷ [])
        ≡ numberings.Unusable }
    ensures order_0 { sps_numbering (0x67 ∷ 0x42 ∷ 0xc0 ∷ 0x1e ∷ 0xb8 ∷ 0xd4 ∷ 0x0a ∷
        0x0f ∷ 0xc8 ∷ []) ≡ told 6 false }
    ensures order_1 { sps_numbering (0x67 ∷ 0x42 ∷ 0xc0 ∷ 0x1e ∷ 0x91 ∷ 0x0b ∷ 0x62 ∷
        0x1a ∷ 0x05 ∷ 0x07 ∷ 0xe4 ∷ []) ≡ told 7 false }
    ensures emulation { sps_numbering (0x67 ∷ 0x42 ∷ 0xc0 ∷ 0x1e ∷ 0x88 ∷ 0x40 ∷ 0x00 ∷
        0x00 ∷ 0x04 ∷ 0x00 ∷ 0x00 ∷ 0x03 ∷ 0x01 ∷ 0xa0 ∷ 0x50 ∷ 0x7e ∷ 0x40 ∷ [])
        ≡ told 11 false }
    ensures cut_off { sps_numbering (0x67 ∷ 0x42 ∷ 0xc0 ∷ 0x1e ∷ 0xda ∷ [])
        ≡ numberings.Unusable }
{}

/// So of the high profiles: with scaling lists, and with colour planes that are coded apart.
#[tactic(auto, unfolding(crate::specs::Bits::code_of, crate::specs::Bits::bits_number))]
pub fn high_profiles_that_tell_of_frame_numbers()
    ensures high { sps_numbering (0x67 ∷ 0x64 ∷ 0x00 ∷ 0x1e ∷ 0xac ∷ 0x4d ∷ 0x02 ∷ 0x83 ∷
        0xf2 ∷ []) ≡ told 5 false }
    ensures scaling { sps_numbering (0x67 ∷ 0x64 ∷ 0x00 ∷ 0x1e ∷ 0xad ∷ 0x84 ∷ 0x61 ∷
        0x0f ∷ 0xff ∷ 0xf4 ∷ 0x82 ∷ 0xa2 ∷ 0x10 ∷ 0xff ∷ 0xff ∷ 0xff ∷ 0xff ∷ 0xff ∷ 0xff ∷
        0xff ∷ 0xfe ∷ 0x33 ∷ 0x40 ∷ 0xa0 ∷ 0xfc ∷ 0x80 ∷ []) ≡ told 9 false }
    ensures round { sps_numbering (0x67 ∷ 0x64 ∷ 0x00 ∷ 0x1e ∷ 0xad ∷ 0x80 ∷ 0xf0 ∷ 0x01 ∷
        0xfc ∷ 0x80 ∷ 0x1d ∷ 0xa0 ∷ 0x50 ∷ 0x7e ∷ 0x40 ∷ []) ≡ told 10 false }
    ensures planes { sps_numbering (0x67 ∷ 0xf4 ∷ 0x00 ∷ 0x1e ∷ 0x93 ∷ 0xa0 ∷ 0x42 ∷ 0x20 ∷
        0x2b ∷ 0x40 ∷ 0xa0 ∷ 0xfc ∷ 0x80 ∷ []) ≡ told 8 true }
{}

/// The next value of a scaling list goes round at 256.
pub fn values_of_scaling_lists()
    ensures same { next_scale 8 0 ≡ 8 }
    ensures more { next_scale 8 1 ≡ 9 }
    ensures less { next_scale 8 2 ≡ 7 }
    ensures none { next_scale 8 16 ≡ 0 }
    ensures round { next_scale 255 1 ≡ 0 }
    ensures under { next_scale 8 18 ≡ 255 }
{}

/// Sets that tell the same tell it together; those that differ tell nothing.
pub fn sets_that_tell_the_same()
    ensures none { joined_numbering numberings.NotTold (told 4 false) ≡ told 4 false }
    ensures first { joined_numbering (told 4 false) numberings.NotTold ≡ told 4 false }
    ensures same { joined_numbering (told 4 true) (told 4 true) ≡ told 4 true }
    ensures bits { joined_numbering (told 4 false) (told 5 false) ≡ numberings.Unusable }
    ensures plane { joined_numbering (told 4 false) (told 4 true) ≡ numberings.Unusable }
    ensures unusable { joined_numbering (told 4 false) numberings.Unusable ≡ numberings.Unusable }
    ensures stays { joined_numbering numberings.Unusable (told 4 false) ≡ numberings.Unusable }
{}

/// Frame numbers in slice headers: in 4 bits and in 16, behind a pic_parameter_set_id of 3, behind a
/// colour plane.
#[tactic(auto, unfolding(crate::specs::Bits::code_of, crate::specs::Bits::bits_number))]
pub fn frame_numbers_in_slice_headers()
    ensures four { frame_number (record { bits = 4; has_plane = false }) (0x9a ∷ 0xc0 ∷ []) ≡ 6 }
    ensures other_type { frame_number (record { bits = 4; has_plane = false }) (0xfa ∷ []) ≡ 13 }
    ensures sixteen { frame_number (record { bits = 16; has_plane = false })
        (0x9b ∷ 0x57 ∷ 0x9a ∷ []) ≡ 0xabcd }
    ensures third_set { frame_number (record { bits = 4; has_plane = false }) (0x98 ∷ 0x92 ∷ []) ≡ 9 }
    ensures plane { frame_number (record { bits = 10; has_plane = true })
        (0x9a ∷ 0xd4 ∷ 0xa0 ∷ []) ≡ 0x2a5 }
    ensures head { slice_head (0x41 ∷ 0x9a ∷ 0xc0 ∷ [])
        ≡ 0x9a ∷ 0xc0 ∷ 0 ∷ 0 ∷ 0 ∷ 0 ∷ 0 ∷ 0 ∷ [] }
    ensures long { slice_head (0x41 ∷ 1 ∷ 2 ∷ 3 ∷ 4 ∷ 5 ∷ 6 ∷ 7 ∷ 8 ∷ 9 ∷ [])
        ≡ 1 ∷ 2 ∷ 3 ∷ 4 ∷ 5 ∷ 6 ∷ 7 ∷ 8 ∷ [] }
{}

/// The number behind the last one tells that no reference picture was lost, where fewer packets are
/// missing than that number and the packets of a keyframe, and than all numbers.
pub fn numbers_that_tell_no_loss()
    ensures next { tells_no_loss 16 1 5 1 6 ≡ true }
    ensures same { tells_no_loss 16 1 5 1 5 ≡ false }
    ensures over { tells_no_loss 16 1 5 1 7 ≡ false }
    ensures most { tells_no_loss 16 1 5 5 6 ≡ true }
    ensures more { tells_no_loss 16 1 5 6 6 ≡ false }
    ensures long_key { tells_no_loss 16 2 5 6 6 ≡ true }
    ensures behind_a_key { tells_no_loss 16 2 0 1 1 ≡ true }
    ensures behind_a_short_key { tells_no_loss 16 1 0 1 1 ≡ false }
    ensures round { tells_no_loss 16 1 15 1 0 ≡ true }
    ensures all { tells_no_loss 16 2 15 16 0 ≡ false }
{}

/// Numbers of pictures that are sent: of 16, behind the last one, and anew behind a keyframe.
pub fn numbers_of_pictures_that_are_sent()
    ensures round { let it : SentPicture = record
        { is_reference = true; is_reset = false; missing = 0 } in
        number_behind_all 16 14 (it ∷ it ∷ []) ≡ 0 }
    ensures other { let it : SentPicture = record
        { is_reference = false; is_reset = false; missing = 0 } in number_behind 16 14 it ≡ 14 }
    ensures anew { let key : SentPicture = record
        { is_reference = true; is_reset = true; missing = 2 } in
        let it : SentPicture = record { is_reference = true; is_reset = false; missing = 1 } in
        number_behind_all 16 14 (key ∷ it ∷ it ∷ []) ≡ 2 }
    ensures lost { MayBeLost 2 (record { is_reference = true; is_reset = true; missing = 2 }) }
    ensures short { MayBeLost 2 (record { is_reference = true; is_reset = true; missing = 1 }) → ⊥ }
    ensures came { MayBeLost 2 (record { is_reference = true; is_reset = false; missing = 0 }) → ⊥ }
    ensures unreferenced { MayBeLost 2
        (record { is_reference = false; is_reset = false; missing = 0 }) }
{}

/// A decoder goes on behind missing packets by frame numbers: from 5 to 6, by 4 bits, where at most
/// five are missing and it begins with the first slice of a picture that is no keyframe.
#[tactic(auto, unfolding(crate::specs::Bits::code_of, crate::specs::Bits::bits_number))]
pub fn decoders_that_go_on_by_frame_numbers()
    ensures goes_on { let d = record fresh_decoder {
      is_clean = true;
      numbering = told 4 false;
      last_head = Some (0x9a ∷ 0xa0 ∷ []);
    } in
        let it = record no_content
        { slice = Some (slice true false false 0); head = Some (0x9a ∷ 0xc0 ∷ []) } in
        (decoder_after d false true (extras.H264 (record { is_keyframe = false }))
        (record numbers_of_none { missing = 5; is_counted = true }) it).is_clean ≡ true }
    ensures too_many { let d = record fresh_decoder {
      numbering = told 4 false;
      last_head = Some (0x9a ∷ 0xa0 ∷ []);
    } in
        let it = record no_content
        { slice = Some (slice true false false 0); head = Some (0x9a ∷ 0xc0 ∷ []) } in
        is_behind_no_loss d false (record numbers_of_none { missing = 6; is_counted = true }) it
        ≡ false }
    ensures other_number { let d = record fresh_decoder {
      numbering = told 4 false;
      last_head = Some (0x9a ∷ 0xa0 ∷ []);
    } in
        let it = record no_content
        { slice = Some (slice true false false 0); head = Some (0x9a ∷ 0xe0 ∷ []) } in
        is_behind_no_loss d false (record numbers_of_none { missing = 1; is_counted = true }) it
        ≡ false }
    ensures damaged { let d = record fresh_decoder {
      is_clean = true;
      numbering = told 4 false;
      last_head = Some (0x9a ∷ 0xa0 ∷ []);
    } in
        let it = record no_content
        { slice = Some (slice true false false 0); head = Some (0x9a ∷ 0xc0 ∷ []) } in
        (decoder_after d false false (extras.H264 (record { is_keyframe = false }))
        (record numbers_of_none { missing = 1; is_counted = true }) it).is_clean ≡ false }
    ensures disposable { let d = record fresh_decoder {
      is_clean = true;
      numbering = told 4 false;
      last_head = Some (0x9a ∷ 0xa0 ∷ []);
    } in
        let it = record no_content
        { slice = Some (slice true false true 0); head = Some (0x9a ∷ 0xc0 ∷ []) } in
        (decoder_after d false false (extras.H264 (record { is_keyframe = false }))
        (record numbers_of_none { missing = 1; is_counted = true }) it).is_clean ≡ true }
{}

/// It isn't asked where sets were given, where not all is counted that is missing, behind a marker of
/// its own timestamp, and of keyframes and second slices.
pub fn access_units_of_which_numbers_tell_nothing()
    ensures given { (d : DecoderState) (it : Content) → is_behind_no_loss d true
        (record numbers_of_none { missing = 1; is_counted = true }) it ≡ false }
    ensures not_counted { (d : DecoderState) (it : Content) → is_behind_no_loss d false
        (record numbers_of_none { missing = 1 }) it ≡ false }
    ensures goes_on { (d : DecoderState) (it : Content) → is_behind_no_loss d false
        (record numbers_of_none { missing = 1; is_counted = true; continues = true }) it ≡ false }
    ensures key { (d : DecoderState) → is_behind_no_loss d false
        (record numbers_of_none { missing = 1; is_counted = true })
        (record no_content { slice = Some (slice true true false 0) }) ≡ false }
    ensures second { (d : DecoderState) → is_behind_no_loss d false
        (record numbers_of_none { missing = 1; is_counted = true })
        (record no_content { slice = Some (slice false false false 0) }) ≡ false }
    ensures none { tells_none_lost (told 4 false) false None (Some []) 1 ≡ false }
    ensures unusable { tells_none_lost numberings.Unusable false (Some []) (Some []) 1 ≡ false }
    ensures long { tells_none_lost (told 17 false) false (Some []) (Some []) 1 ≡ false }
{}

/// The last reference picture is known behind one that is whole from its first slice on, and behind one
/// that nothing refers to as before; behind any other it isn't.
pub fn last_reference_pictures()
    ensures own { head_after None true numbers_of_none (record no_content
        { slice = Some (slice true false false 0); head = Some (7 ∷ []) }) ≡ Some (7 ∷ []) }
    ensures damaged { head_after (Some []) false numbers_of_none (record no_content
        { slice = Some (slice true false false 0); head = Some (7 ∷ []) }) ≡ None }
    ensures second { head_after (Some []) true numbers_of_none (record no_content
        { slice = Some (slice false false false 0); head = Some (7 ∷ []) }) ≡ None }
    ensures unreferenced { head_after (Some (5 ∷ [])) false
        (record numbers_of_none { is_counted = true }) (record no_content
        { slice = Some (slice true false true 0); head = Some (7 ∷ []) }) ≡ Some (5 ∷ []) }
    ensures not_counted { head_after (Some (5 ∷ [])) true numbers_of_none (record no_content
        { slice = Some (slice true false true 0); head = Some (7 ∷ []) }) ≡ None }
    ensures key { head_after (Some (5 ∷ [])) true numbers_of_none (record no_content
        { slice = Some (slice true true true 0); head = Some (7 ∷ []) }) ≡ Some (7 ∷ []) }
    ensures none { head_after (Some (5 ∷ [])) true (record numbers_of_none { is_counted = true })
        no_content ≡ None }
    ensures long_key { long_key_after false (record numbers_of_none { first = 7; last = 8 })
        (Some (slice true true false 0)) ≡ true }
    ensures short_key { long_key_after true numbers_of_none (Some (slice true true false 0)) ≡ false }
    ensures no_key { long_key_after true numbers_of_none (Some (slice true false false 0)) ≡ true }
{}

/// What is missing is counted where a packet was taken since the beginning, over a gap too, and not
/// behind the end of a stream.
pub fn missing_packets_that_are_counted()
    ensures counted { (begun_numbers None false true 0 (7, rtp_body 0 false []) 3).is_counted ≡ true }
    ensures begins { (begun_numbers None true false 0 (7, rtp_body 0 false []) 3).is_counted ≡ false }
    ensures over_a_gap { (after_missing (record fresh_numbers { has_taken = true }) 3).has_taken
        ≡ true }
    ensures behind_the_end { (after_last (record fresh_numbers { has_taken = true })).has_taken
        ≡ false }
    ensures told { (begun_numbers_at fresh_numbers).has_taken ≡ false }
{}
