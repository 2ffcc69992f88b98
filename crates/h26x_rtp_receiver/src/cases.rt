//! Worked cases of the definitions, which the checker computes. Each is the contract of a function
//! without a result.

ghost use Rattle.std.specs.Prelude.{◌≡◌, true, false, None, Some, Ok, Err, [], ◌∷◌, ◌++◌};
ghost use Rattle.h26x_access_units.specs.Account.{PushCall, FinishCall};
ghost use Rattle.h26x_access_units.specs.declared.config.AccessUnitConfig.{AccessUnitConfig};
ghost use Rattle.h26x_model.specs.Receive.DepacketizerState.{DepacketizerState};
ghost use Rattle.h26x_rtp.specs.Statistics.{no_statistics};
ghost use Rattle.h26x_rtp_receiver.specs.Cases.{types_of_case, packet_of_case, sources_of_case, fresh_of_case, receiver_of_case, datagram_of_case, original_of_case, answer_of_case, taken_of_case};
ghost use Rattle.h26x_rtp_receiver.specs.Keyframes.{no_requests, requests_after, requests_asked, is_keyframe_due};
ghost use Rattle.h26x_rtp_receiver.specs.Original.{original_of, bearing_none};
ghost use Rattle.h26x_rtp_receiver.specs.RtpCalls.{AreRtpCalls, PushRtp, FinishRtp};
ghost use Rattle.h26x_rtp_receiver.specs.RtpReception.{Told, Brings, brought, statistics_after, told_packet, finished_rtp};
ghost use Rattle.h26x_rtp_receiver.specs.Sources.{told, is_followed, sources_with};
ghost use Rattle.h26x_reorder.specs.Rtp.{rtp_body};

use crate::original::NoMedia;
use crate::pushed::{RtpPushError, RtpPushed};
use h26x_access_units::Pushed;
use h26x_rtp::{RedError, RtpError};

/// Of payload types 96, RTX 97, RED 98, RTX of RED 99 and FEC 100: packets of each.
pub fn originals()
    ensures media { original_of types_of_case (packet_of_case 96 7 (0x65 ∷ 0xaa ∷ []))
        ≡ Ok (Some (record {
          packet = (7, rtp_body 9 true (0x65 ∷ 0xaa ∷ []));
          no_media = None;
          is_recovered = false;
        })) }
    ensures padding { original_of types_of_case (packet_of_case 96 7 [])
        ≡ Ok (Some (bearing_none false 7 NoMedia.Padding)) }
    ensures other { original_of types_of_case (packet_of_case 101 7 (0x65 ∷ []))
        ≡ Ok (Some (bearing_none false 7 (NoMedia.OtherPayloadType 101))) }
    ensures fec { original_of types_of_case (packet_of_case 100 7 (0x65 ∷ []))
        ≡ Ok (Some (bearing_none false 7 NoMedia.Fec)) }
{}

/// Retransmissions: of a packet, of one of padding alone, and of none.
pub fn retransmissions()
    ensures media { original_of types_of_case (packet_of_case 97 500 (0x00 ∷ 0x07 ∷ 0x65 ∷ []))
        ≡ Ok (Some (record {
          packet = (7, rtp_body 9 true (0x65 ∷ []));
          no_media = None;
          is_recovered = true;
        })) }
    ensures padding { original_of types_of_case (packet_of_case 97 500 (0x00 ∷ 0x07 ∷ []))
        ≡ Ok (Some (bearing_none true 7 NoMedia.Padding)) }
    ensures none { original_of types_of_case (packet_of_case 97 500 []) ≡ Ok None }
    ensures short { original_of types_of_case (packet_of_case 97 500 (0x00 ∷ [])) ≡ Ok None }
    ensures red { original_of types_of_case (packet_of_case 99 500 (0x01 ∷ 0x02 ∷ 96 ∷ 0x65 ∷ []))
        ≡ Ok (Some (record {
          packet = (0x102, rtp_body 9 true (0x65 ∷ []));
          no_media = None;
          is_recovered = true;
        })) }
{}

/// Redundant payloads: with a primary block of the codec, alone and behind one of FEC; with one of FEC;
/// with one of none; with padding alone; and one that is none.
pub fn redundant_payloads()
    ensures alone { original_of types_of_case (packet_of_case 98 7 (96 ∷ 0x65 ∷ []))
        ≡ Ok (Some (record {
          packet = (7, rtp_body 9 true (0x65 ∷ []));
          no_media = None;
          is_recovered = false;
        })) }
    ensures behind { original_of types_of_case
        (packet_of_case 98 7 (0xe4 ∷ 0x00 ∷ 0x00 ∷ 0x01 ∷ 96 ∷ 0xbb ∷ 0x65 ∷ []))
        ≡ Ok (Some (record {
          packet = (7, rtp_body 9 true (0x65 ∷ []));
          no_media = None;
          is_recovered = false;
        })) }
    ensures fec { original_of types_of_case (packet_of_case 98 7 (100 ∷ 0x65 ∷ []))
        ≡ Ok (Some (bearing_none false 7 NoMedia.Fec)) }
    ensures other { original_of types_of_case (packet_of_case 98 7 (101 ∷ 0x65 ∷ []))
        ≡ Ok (Some (bearing_none false 7 (NoMedia.OtherPayloadType 101))) }
    ensures empty { original_of types_of_case (packet_of_case 98 7 (96 ∷ []))
        ≡ Ok (Some (bearing_none false 7 NoMedia.Padding)) }
    ensures padding { original_of types_of_case (packet_of_case 98 7 [])
        ≡ Ok (Some (bearing_none false 7 NoMedia.Padding)) }
    ensures refused { original_of types_of_case (packet_of_case 98 7 (0xe4 ∷ 0x00 ∷ []))
        ≡ Err RedError.HeadersPastTheEnd }
{}

/// Packets of the SSRC 1: before any is followed, where 1 is, or 2; retransmissions, by their SSRC and
/// by the number that they bear; and the SSRCs that are known then.
pub fn sources()
    ensures first { told types_of_case (sources_of_case None None) (packet_of_case 96 7 [])
        ≡ Some true }
    ensures first_red { told types_of_case (sources_of_case None None) (packet_of_case 98 7 [])
        ≡ Some true }
    ensures first_other { told types_of_case (sources_of_case None None) (packet_of_case 97 7 [])
        ≡ Some false }
    ensures followed { told types_of_case (sources_of_case (Some 1) None) (packet_of_case 101 7 [])
        ≡ Some true }
    ensures other { told types_of_case (sources_of_case (Some 2) None) (packet_of_case 96 7 [])
        ≡ Some false }
    ensures resent { told types_of_case (sources_of_case (Some 2) (Some 1)) (packet_of_case 97 7 [])
        ≡ Some true }
    ensures resent_other { told types_of_case (sources_of_case (Some 2) (Some 3))
        (packet_of_case 97 7 []) ≡ Some false }
    ensures same_ssrc { told types_of_case (sources_of_case (Some 1) (Some 3))
        (packet_of_case 97 7 []) ≡ Some true }
    ensures not_told { told types_of_case (sources_of_case (Some 2) None) (packet_of_case 97 7 [])
        ≡ None }
    ensures missing { is_followed types_of_case (sources_of_case (Some 2) None) (6 ∷ 7 ∷ [])
        (packet_of_case 97 500 (0x00 ∷ 0x07 ∷ [])) ≡ true }
    ensures not_missing { is_followed types_of_case (sources_of_case (Some 2) None) (6 ∷ [])
        (packet_of_case 97 500 (0x00 ∷ 0x07 ∷ [])) ≡ false }
    ensures begun { sources_with 1 (sources_of_case None None) ≡ sources_of_case (Some 1) None }
    ensures known { sources_with 1 (sources_of_case (Some 1) None) ≡ sources_of_case (Some 1) None }
    ensures learnt { sources_with 1 (sources_of_case (Some 2) None)
        ≡ sources_of_case (Some 2) (Some 1) }
{}

/// Keyframes to ask for, every 100 ticks at most: not before an access unit, nor where a decoder can
/// show it; where it can't, unless no picture refers to it.
pub fn keyframes_to_ask_for()
    ensures before { is_keyframe_due 100 5 no_requests ≡ false }
    ensures clean { is_keyframe_due 100 5 (requests_after true false no_requests) ≡ false }
    ensures broken { is_keyframe_due 100 5 (requests_after false false
        (requests_after true false no_requests)) ≡ true }
    ensures disposable { is_keyframe_due 100 5 (requests_after false true
        (requests_after true false no_requests)) ≡ false }
    ensures begun { is_keyframe_due 100 5 (requests_after false true no_requests) ≡ true }
    ensures soon { is_keyframe_due 100 104 (requests_asked 100 5
        (requests_after false false no_requests)) ≡ false }
    ensures again { is_keyframe_due 100 105 (requests_asked 100 5
        (requests_after false false no_requests)) ≡ true }
    ensures round { is_keyframe_due 100 0 (requests_asked 100 0xffff_ffff
        (requests_after false false no_requests)) ≡ false }
{}

/// Datagrams that bring a packet of the stream: one of the codec; a retransmission; RED, with a primary
/// block of the codec, and of FEC; padding alone.
pub fn datagrams_of_a_stream()
    ensures first { (config : AccessUnitConfig) (state : DepacketizerState) →
        brought (fresh_of_case config state) (datagram_of_case 96 7 5 (0x65 ∷ []))
        ≡ Ok (Brings (record (packet_of_case 96 7 (0x65 ∷ [])) {
          header = record (packet_of_case 96 7 []).header { ssrc = 5 };
        }) (record {
          packet = (7, rtp_body 9 true (0x65 ∷ []));
          no_media = None;
          is_recovered = false;
        })) }
    ensures media { (config : AccessUnitConfig) (state : DepacketizerState) →
        brought (receiver_of_case config state) (datagram_of_case 96 7 1 (0x65 ∷ []))
        ≡ Ok (Brings (packet_of_case 96 7 (0x65 ∷ [])) original_of_case) }
    ensures rtx { (config : AccessUnitConfig) (state : DepacketizerState) →
        brought (receiver_of_case config state) (datagram_of_case 97 200 2 (0x00 ∷ 0x07 ∷ 0x65 ∷ []))
        ≡ Ok (Brings (record (packet_of_case 97 200 (0x00 ∷ 0x07 ∷ 0x65 ∷ [])) {
          header = record (packet_of_case 97 200 []).header { ssrc = 2 };
        }) (record {
          packet = (7, rtp_body 9 true (0x65 ∷ []));
          no_media = None;
          is_recovered = true;
        })) }
    ensures red { (config : AccessUnitConfig) (state : DepacketizerState) →
        brought (receiver_of_case config state) (datagram_of_case 98 7 1 (96 ∷ 0x65 ∷ []))
        ≡ Ok (Brings (packet_of_case 98 7 (96 ∷ 0x65 ∷ [])) (record {
          packet = (7, rtp_body 9 true (0x65 ∷ []));
          no_media = None;
          is_recovered = false;
        })) }
    ensures fec { (config : AccessUnitConfig) (state : DepacketizerState) →
        brought (receiver_of_case config state) (datagram_of_case 98 7 1 (100 ∷ 0x65 ∷ []))
        ≡ Ok (Brings (packet_of_case 98 7 (100 ∷ 0x65 ∷ [])) (bearing_none false 7 NoMedia.Fec)) }
    ensures padding { (config : AccessUnitConfig) (state : DepacketizerState) →
        brought (receiver_of_case config state) (datagram_of_case 96 7 1 [])
        ≡ Ok (Brings (packet_of_case 96 7 []) (bearing_none false 7 NoMedia.Padding)) }
{}

/// Datagrams that change nothing: RTCP; a packet of the codec, and a retransmission, from another
/// source; a probe; what is no RTP packet; and what is no redundant payload.
pub fn datagrams_that_change_nothing()
    ensures rtcp { (config : AccessUnitConfig) (state : DepacketizerState) →
        brought (receiver_of_case config state) (datagram_of_case 72 7 1 [])
        ≡ Ok (Told RtpPushed.Rtcp) }
    ensures new { (config : AccessUnitConfig) (state : DepacketizerState) →
        brought (receiver_of_case config state) (datagram_of_case 96 7 5 (0x65 ∷ []))
        ≡ Ok (Told (RtpPushed.NewSource 5)) }
    ensures other { (config : AccessUnitConfig) (state : DepacketizerState) →
        brought (receiver_of_case config state) (datagram_of_case 97 7 5 (0x00 ∷ 0x07 ∷ 0x65 ∷ []))
        ≡ Ok (Told (RtpPushed.OtherSource 5)) }
    ensures probe { (config : AccessUnitConfig) (state : DepacketizerState) →
        brought (receiver_of_case config state) (datagram_of_case 97 200 2 [])
        ≡ Ok (Told RtpPushed.Probe) }
    ensures short { (config : AccessUnitConfig) (state : DepacketizerState) →
        brought (receiver_of_case config state) (0x80 ∷ 0x60 ∷ [])
        ≡ Err (RtpPushError.Rtp RtpError.TooShort) }
    ensures red { (config : AccessUnitConfig) (state : DepacketizerState) →
        brought (receiver_of_case config state) (datagram_of_case 98 7 1 (0xe0 ∷ []))
        ≡ Err (RtpPushError.Red RedError.HeadersPastTheEnd) }
{}

/// Calls of a receiver, with a packet, with RTCP, and of `finish`, and those of its receiver of access
/// units.
pub fn calls_of_a_receiver()
    ensures { (config : AccessUnitConfig) (state : DepacketizerState) →
        AreRtpCalls (receiver_of_case config state)
        (FinishRtp ∷ PushRtp 7 8 (datagram_of_case 72 7 1 []) (Ok RtpPushed.Rtcp)
        ∷ PushRtp 5 6 (datagram_of_case 96 7 1 (0x65 ∷ []))
        (Ok (told_packet original_of_case (answer_of_case config state))) ∷ [])
        (FinishCall ∷ PushCall 5 original_of_case.packet (answer_of_case config state) ∷ [])
        (finished_rtp (taken_of_case config state)) }
{}

/// A packet that came counts as received, one that is recovered as that, if it is kept.
pub fn packets_counted()
    ensures own { (statistics_after 6 (packet_of_case 96 7 (0x65 ∷ [])) false Pushed.Twice
        no_statistics).received ≡ 1 }
    ensures recovered { statistics_after 6 (packet_of_case 97 200 (0x00 ∷ 0x07 ∷ [])) true Pushed.Held
        no_statistics ≡ record no_statistics { recovered = 1 } }
    ensures twice { statistics_after 6 (packet_of_case 97 200 (0x00 ∷ 0x07 ∷ [])) true Pushed.Twice
        no_statistics ≡ no_statistics }
{}
