//! Worked cases of the definitions, which the checker computes. Each is the contract of a function
//! without a result.

ghost use Rattle.std.specs.Prelude.{◌≡◌, true, false, None, Some, Ok, Err, [], ◌∷◌, pos, negsuc};
ghost use Rattle.h26x_rtp.specs.Datagram.{datagram_bytes, IsPadding};
ghost use Rattle.h26x_rtp.specs.Reading.{datagram_of};
ghost use Rattle.h26x_rtp.specs.Elements.{extension_elements, extension_placed, elements_in, element_bytes, first_placed, form_of};
ghost use Rattle.h26x_rtp.specs.Feedback.{PictureLossFits, IntraRequestFits, ReceiverReportFits, picture_loss_bytes, picture_loss_of, intra_request_bytes, intra_request_of, receiver_report_bytes, receiver_report_of, lost_word, lost_in};
ghost use Rattle.h26x_rtp.specs.Memory.{filled_from, overwritten};
ghost use Rattle.h26x_rtp.specs.Nack.{IsNackWritten, NackFits, nack_bytes, nack_count, nack_of, nack_pairs, pair_numbers, pairs_room};
ghost use Rattle.h26x_rtp.specs.Red.{red_of, red_bytes, block_header};
ghost use Rattle.h26x_rtp.specs.Rtcp.{IsRtcp, first_rtcp};
ghost use Rattle.h26x_rtp.specs.Rtx.{rtx_bytes, retransmission_of};
ghost use Rattle.h26x_rtp.specs.Statistics.{AreNear, AreAllCounted, after_number, after_numbers, after_report, no_statistics, is_counted, extended_highest, lost_of, fraction_of, jitter_after, report_block};

use crate::elements::{ElementForm, RtpElementError};
use crate::error::{RtpError, RtpWriteError};
use crate::feedback::{FullIntraRequest, PictureLoss, ReceiverReport};
use crate::red::RedError;

/// Packets: with marker and payload type 96 alone, of padding alone, and with a CSRC and an extension
/// of a word.
pub fn packets()
    ensures plain { datagram_of (0x80 ∷ 0xe0 ∷ 0x12 ∷ 0x34 ∷ 0x01 ∷ 0x02 ∷ 0x03 ∷ 0x04 ∷ 0xa1 ∷ 0xa2
        ∷ 0xa3 ∷ 0xa4 ∷ 0x65 ∷ []) ≡ Ok (record {
          header = record {
            marker = true;
            payload_type = 96;
            sequence = 0x1234;
            timestamp = 0x01020304;
            ssrc = 0xa1a2a3a4;
            csrcs = [];
            extension = None;
          };
          payload = 0x65 ∷ [];
          padding = [];
        }) }
    ensures padding_alone { datagram_of (0xa0 ∷ 0x60 ∷ 0x00 ∷ 0x07 ∷ 0x00 ∷ 0x00 ∷ 0x00 ∷ 0x00 ∷ 0x00
        ∷ 0x00 ∷ 0x00 ∷ 0x01 ∷ 0x00 ∷ 0x00 ∷ 0x03 ∷ []) ≡ Ok (record {
          header = record {
            marker = false;
            payload_type = 96;
            sequence = 7;
            timestamp = 0;
            ssrc = 1;
            csrcs = [];
            extension = None;
          };
          payload = [];
          padding = 0x00 ∷ 0x00 ∷ 0x03 ∷ [];
        }) }
    ensures whole { datagram_bytes (record {
      header = record {
        marker = true;
        payload_type = 127;
        sequence = 65535;
        timestamp = 0;
        ssrc = 0xffffffff;
        csrcs = 0x0a ∷ 0x0b ∷ 0x0c ∷ 0x0d ∷ [];
        extension = Some (record {
          profile = 0xbede;
          bytes = 0x10 ∷ 0xaa ∷ 0x00 ∷ 0x00 ∷ [];
        });
      };
      payload = 0x41 ∷ [];
      padding = 0x01 ∷ [];
    }) ≡ 0xb1 ∷ 0xff ∷ 0xff ∷ 0xff ∷ 0x00 ∷ 0x00 ∷ 0x00 ∷ 0x00 ∷ 0xff ∷ 0xff ∷ 0xff ∷ 0xff ∷ 0x0a
        ∷ 0x0b ∷ 0x0c ∷ 0x0d ∷ 0xbe ∷ 0xde ∷ 0x00 ∷ 0x01 ∷ 0x10 ∷ 0xaa ∷ 0x00 ∷ 0x00 ∷ 0x41
        ∷ 0x01 ∷ [] }
{}

/// Bytes that are no packet: each fault alone, and the first of two.
pub fn refused_packets()
    ensures short { datagram_of (0x80 ∷ 0x60 ∷ 0x00 ∷ 0x01 ∷ 0x00 ∷ 0x00 ∷ 0x00 ∷ 0x00 ∷ 0x00 ∷ 0x00
        ∷ 0x00 ∷ []) ≡ Err RtpError.TooShort }
    ensures version { datagram_of (0x41 ∷ 0x60 ∷ 0x00 ∷ 0x01 ∷ 0x00 ∷ 0x00 ∷ 0x00 ∷ 0x00 ∷ 0x00 ∷ 0x00
        ∷ 0x00 ∷ 0x00 ∷ []) ≡ Err (RtpError.OtherVersion 1) }
    ensures csrcs { datagram_of (0xb1 ∷ 0x60 ∷ 0x00 ∷ 0x01 ∷ 0x00 ∷ 0x00 ∷ 0x00 ∷ 0x00 ∷ 0x00 ∷ 0x00
        ∷ 0x00 ∷ 0x00 ∷ 0x0a ∷ 0x0b ∷ 0x00 ∷ []) ≡ Err RtpError.CsrcsPastTheEnd }
    ensures extension { datagram_of (0xb0 ∷ 0x60 ∷ 0x00 ∷ 0x01 ∷ 0x00 ∷ 0x00 ∷ 0x00 ∷ 0x00 ∷ 0x00
        ∷ 0x00 ∷ 0x00 ∷ 0x00 ∷ 0xbe ∷ 0xde ∷ 0x00 ∷ 0x01 ∷ 0x00 ∷ 0x00 ∷ 0x00 ∷ [])
        ≡ Err RtpError.ExtensionPastTheEnd }
    ensures zero { datagram_of (0xa0 ∷ 0x60 ∷ 0x00 ∷ 0x01 ∷ 0x00 ∷ 0x00 ∷ 0x00 ∷ 0x00 ∷ 0x00 ∷ 0x00
        ∷ 0x00 ∷ 0x00 ∷ 0x41 ∷ 0x00 ∷ []) ≡ Err RtpError.PaddingOfZero }
    ensures long { datagram_of (0xa0 ∷ 0x60 ∷ 0x00 ∷ 0x01 ∷ 0x00 ∷ 0x00 ∷ 0x00 ∷ 0x00 ∷ 0x00 ∷ 0x00
        ∷ 0x00 ∷ 0x00 ∷ 0x41 ∷ 0x03 ∷ []) ≡ Err RtpError.PaddingTooLong }
    ensures nothing_left { datagram_of (0xa0 ∷ 0x60 ∷ 0x00 ∷ 0x01 ∷ 0x00 ∷ 0x00 ∷ 0x00 ∷ 0x00 ∷ 0x00
        ∷ 0x00 ∷ 0x00 ∷ 0x00 ∷ []) ≡ Err RtpError.PaddingTooLong }
{}

/// Padding that says its length, and some that doesn't.
pub fn paddings()
    ensures none { IsPadding [] }
    ensures two { IsPadding (0xff ∷ 0x02 ∷ []) }
    ensures zero { IsPadding (0x00 ∷ []) → ⊥ }
    ensures long { IsPadding (0x00 ∷ 0x03 ∷ []) → ⊥ }
{}

/// Memory that is written to keeps what stands before and behind.
pub fn written_memory()
    ensures { overwritten 1 (0xaa ∷ 0xbb ∷ []) (1 ∷ 2 ∷ 3 ∷ 4 ∷ []) ≡ 1 ∷ 0xaa ∷ 0xbb ∷ 4 ∷ [] }
{}

/// Elements of both forms, as in the figures of RFC 8285, 4.2 and 4.3; where they end; and profiles.
pub fn elements_of_extensions()
    ensures one_byte { extension_elements (record {
      profile = 0xbede;
      bytes = 0x10 ∷ 0xaa ∷ 0x21 ∷ 0xbb ∷ 0xcc ∷ 0x00 ∷ 0x00 ∷ 0x33 ∷ 0xd0 ∷ 0xd1 ∷ 0xd2 ∷ 0xd3
          ∷ [];
    }) ≡ record { id = 1; bytes = 0xaa ∷ [] } ∷ record { id = 2; bytes = 0xbb ∷ 0xcc ∷ [] }
        ∷ record { id = 3; bytes = 0xd0 ∷ 0xd1 ∷ 0xd2 ∷ 0xd3 ∷ [] } ∷ [] }
    ensures two_bytes { extension_elements (record {
      profile = 0x1000;
      bytes = 0x01 ∷ 0x00 ∷ 0x02 ∷ 0x01 ∷ 0xbb ∷ 0x00 ∷ 0x03 ∷ 0x04 ∷ 0xd0 ∷ 0xd1 ∷ 0xd2 ∷ 0xd3
          ∷ [];
    }) ≡ record { id = 1; bytes = [] } ∷ record { id = 2; bytes = 0xbb ∷ [] }
        ∷ record { id = 3; bytes = 0xd0 ∷ 0xd1 ∷ 0xd2 ∷ 0xd3 ∷ [] } ∷ [] }
    ensures reserved { elements_in ElementForm.OneByte (0x10 ∷ 0xaa ∷ 0xf0 ∷ 0x00 ∷ 0x20 ∷ 0xbb ∷ [])
        ≡ record { id = 1; bytes = 0xaa ∷ [] } ∷ [] }
    ensures no_padding { elements_in ElementForm.OneByte (0x01 ∷ 0xaa ∷ 0xbb ∷ 0x10 ∷ 0xcc ∷ []) ≡ [] }
    ensures past { elements_in ElementForm.OneByte (0x11 ∷ 0xaa ∷ []) ≡ [] }
    ensures past_two { elements_in ElementForm.TwoBytes (0x11 ∷ 0x02 ∷ 0xaa ∷ []) ≡ [] }
    ensures no_length { elements_in ElementForm.TwoBytes (0x11 ∷ []) ≡ [] }
    ensures fifteen { elements_in ElementForm.TwoBytes (0x0f ∷ 0x01 ∷ 0xaa ∷ [])
        ≡ record { id = 15; bytes = 0xaa ∷ [] } ∷ [] }
    ensures appbits { form_of 0x100f ≡ Some ElementForm.TwoBytes }
    ensures other { form_of 0x1010 ≡ None }
    ensures written { element_bytes ElementForm.OneByte (record { id = 14; bytes = 0xaa ∷ [] })
        ≡ 0xe0 ∷ 0xaa ∷ [] }
{}

/// The elements of the same extensions by their places, from a place on; and those that pass the end.
pub fn elements_by_their_places()
    ensures first { first_placed ElementForm.OneByte 0 (0x10 ∷ 0xaa ∷ 0x21 ∷ 0xbb ∷ 0xcc ∷ 0x00 ∷ [])
        ≡ Ok (Some (record { place = 1; parts = record { id = 1; bytes = 0xaa ∷ [] } })) }
    ensures next { extension_placed (record {
      profile = 0xbede;
      bytes = 0x10 ∷ 0xaa ∷ 0x00 ∷ 0x21 ∷ 0xbb ∷ 0xcc ∷ 0x00 ∷ 0x00 ∷ [];
    }) 2 ≡ Ok (Some (record { place = 4; parts = record { id = 2; bytes = 0xbb ∷ 0xcc ∷ [] } })) }
    ensures last { first_placed ElementForm.OneByte 6 (0x00 ∷ 0x00 ∷ []) ≡ Ok None }
    ensures two_bytes { extension_placed (record {
      profile = 0x1000;
      bytes = 0x01 ∷ 0x00 ∷ 0x02 ∷ 0x01 ∷ 0xbb ∷ [];
    }) 2 ≡ Ok (Some (record { place = 4; parts = record { id = 2; bytes = 0xbb ∷ [] } })) }
    ensures empty { first_placed ElementForm.TwoBytes 0 (0x01 ∷ 0x00 ∷ [])
        ≡ Ok (Some (record { place = 2; parts = record { id = 1; bytes = [] } })) }
    ensures reserved { first_placed ElementForm.OneByte 2 (0xf0 ∷ 0x00 ∷ 0x20 ∷ 0xbb ∷ []) ≡ Ok None }
    ensures no_padding { first_placed ElementForm.OneByte 0 (0x01 ∷ 0xaa ∷ 0xbb ∷ []) ≡ Ok None }
    ensures past { first_placed ElementForm.OneByte 0 (0x11 ∷ 0xaa ∷ [])
        ≡ Err RtpElementError.PastTheEnd }
    ensures past_two { first_placed ElementForm.TwoBytes 0 (0x11 ∷ 0x02 ∷ 0xaa ∷ [])
        ≡ Err RtpElementError.PastTheEnd }
    ensures no_length { first_placed ElementForm.TwoBytes 0 (0x11 ∷ [])
        ≡ Err RtpElementError.PastTheEnd }
    ensures other { extension_placed (record { profile = 0x1010; bytes = 0x11 ∷ [] }) 0 ≡ Ok None }
    ensures behind { extension_placed (record { profile = 0xbede; bytes = 0x11 ∷ [] }) 1 ≡ Ok None }
{}

/// A sender report and the edges of RTCP's packet types; packets with payload type 96.
pub fn rtcp_by_its_second_byte()
    ensures report { IsRtcp (0x80 ∷ 0xc8 ∷ []) }
    ensures first { IsRtcp (0x80 ∷ 0xc0 ∷ []) }
    ensures last { IsRtcp (0x80 ∷ 0xdf ∷ []) }
    ensures before { IsRtcp (0x80 ∷ 0xbf ∷ []) → ⊥ }
    ensures marked { IsRtcp (0x80 ∷ 0xe0 ∷ []) → ⊥ }
    ensures one_byte { IsRtcp (0xc8 ∷ []) → ⊥ }
{}

/// The first packet of a compound, and what is behind it (RFC 3550, 6.1): a receiver report before a
/// PLI, and a PLI alone; none where one is cut in the middle, of version 1, or of three bytes.
pub fn packets_of_a_compound()
    ensures before { first_rtcp (0x80 ∷ 0xc9 ∷ 0x00 ∷ 0x01 ∷ 0x00 ∷ 0x00 ∷ 0x00 ∷ 0x01 ∷ 0x81 ∷ 0xce
        ∷ 0x00 ∷ 0x02 ∷ 0x00 ∷ 0x00 ∷ 0x00 ∷ 0x01 ∷ 0x00 ∷ 0x00 ∷ 0x00 ∷ 0x02 ∷ [])
        ≡ Some (
          0x80 ∷ 0xc9 ∷ 0x00 ∷ 0x01 ∷ 0x00 ∷ 0x00 ∷ 0x00 ∷ 0x01 ∷ [],
          0x81 ∷ 0xce ∷ 0x00 ∷ 0x02 ∷ 0x00 ∷ 0x00 ∷ 0x00 ∷ 0x01 ∷ 0x00 ∷ 0x00 ∷ 0x00 ∷ 0x02 ∷ [],
        ) }
    ensures alone { first_rtcp (0x81 ∷ 0xce ∷ 0x00 ∷ 0x02 ∷ 0x00 ∷ 0x00 ∷ 0x00 ∷ 0x01 ∷ 0x00 ∷ 0x00
        ∷ 0x00 ∷ 0x02 ∷ [])
        ≡ Some (
          0x81 ∷ 0xce ∷ 0x00 ∷ 0x02 ∷ 0x00 ∷ 0x00 ∷ 0x00 ∷ 0x01 ∷ 0x00 ∷ 0x00 ∷ 0x00 ∷ 0x02 ∷ [],
          [],
        ) }
    ensures cut { first_rtcp (0x81 ∷ 0xce ∷ 0x00 ∷ 0x02 ∷ 0x00 ∷ 0x00 ∷ 0x00 ∷ 0x01 ∷ 0x00 ∷ 0x00
        ∷ 0x00 ∷ []) ≡ None }
    ensures other_version { first_rtcp (0x41 ∷ 0xce ∷ 0x00 ∷ 0x02 ∷ 0x00 ∷ 0x00 ∷ 0x00 ∷ 0x01 ∷ 0x00
        ∷ 0x00 ∷ 0x00 ∷ 0x02 ∷ []) ≡ None }
    ensures three_bytes { first_rtcp (0x81 ∷ 0xce ∷ 0x00 ∷ []) ≡ None }
{}

/// A retransmission payload, and the packet: all but payload type, number and SSRC as of the original.
pub fn retransmissions()
    ensures payload { rtx_bytes 0x1234 (0x65 ∷ 0xaa ∷ []) ≡ 0x12 ∷ 0x34 ∷ 0x65 ∷ 0xaa ∷ [] }
    ensures packet { datagram_bytes (retransmission_of (record {
      header = record {
        marker = true;
        payload_type = 96;
        sequence = 0x1234;
        timestamp = 9;
        ssrc = 1;
        csrcs = [];
        extension = None;
      };
      payload = 0x65 ∷ [];
      padding = 0x01 ∷ [];
    }) 97 5 2) ≡ 0x80 ∷ 0xe1 ∷ 0x00 ∷ 0x05 ∷ 0x00 ∷ 0x00 ∷ 0x00 ∷ 0x09 ∷ 0x00 ∷ 0x00 ∷ 0x00 ∷ 0x02
        ∷ 0x12 ∷ 0x34 ∷ 0x65 ∷ [] }
{}

/// A block 160 ticks earlier before the primary one; a primary block alone; what is none.
pub fn redundant_payloads()
    ensures two { red_of (0x87 ∷ 0x02 ∷ 0x80 ∷ 0x02 ∷ 0x05 ∷ 0xaa ∷ 0xbb ∷ 0xcc ∷ [])
        ≡ Ok (record {
          blocks = record { payload_type = 7; offset = 160; bytes = 0xaa ∷ 0xbb ∷ [] } ∷ [];
          payload_type = 5;
          primary = 0xcc ∷ [];
        }) }
    ensures alone { red_of (0x60 ∷ 0x65 ∷ [])
        ≡ Ok (record { blocks = []; payload_type = 96; primary = 0x65 ∷ [] }) }
    ensures header { block_header (record { payload_type = 127; offset = 16383; bytes = 0xaa ∷ [] })
        ≡ 0xff ∷ 0xff ∷ 0xfc ∷ 0x01 ∷ [] }
    ensures written { red_bytes (record { blocks = []; payload_type = 96; primary = 0x65 ∷ [] })
        ≡ 0x60 ∷ 0x65 ∷ [] }
    ensures nothing { red_of [] ≡ Err RedError.HeadersPastTheEnd }
    ensures no_primary { red_of (0x87 ∷ 0x02 ∷ 0x80 ∷ 0x02 ∷ []) ≡ Err RedError.HeadersPastTheEnd }
    ensures cut_header { red_of (0x87 ∷ 0x02 ∷ []) ≡ Err RedError.HeadersPastTheEnd }
    ensures cut_block { red_of (0x87 ∷ 0x02 ∷ 0x80 ∷ 0x02 ∷ 0x05 ∷ 0xaa ∷ [])
        ≡ Err RedError.BlocksPastTheEnd }
{}

/// Numbers that go round, with one lost and one that came late; those that jump, and at the edges.
pub fn numbers_counted()
    ensures round { extended_highest (after_numbers (65534 ∷ 0 ∷ 65535 ∷ 2 ∷ []) no_statistics)
        ≡ 0x1_0002 }
    ensures expected { (after_numbers (65534 ∷ 0 ∷ 65535 ∷ 2 ∷ []) no_statistics).expected ≡ 5 }
    ensures received { (after_numbers (65534 ∷ 0 ∷ 65535 ∷ 2 ∷ []) no_statistics).received ≡ 4 }
    ensures near { AreNear 65534 (65536 ∷ 65535 ∷ 65538 ∷ []) }
    ensures far { AreNear 7 (3007 ∷ []) → ⊥ }
    ensures old { AreNear 107 (7 ∷ []) → ⊥ }
    ensures all { AreAllCounted 65534 65538 4
        (after_numbers (65534 ∷ 0 ∷ 65535 ∷ 2 ∷ []) no_statistics) }
    ensures dropout { is_counted 3006 (after_number 7 no_statistics) ≡ true }
    ensures jump { is_counted 3007 (after_number 7 no_statistics) ≡ false }
    ensures misorder { is_counted 65444 (after_number 7 no_statistics) ≡ true }
    ensures back { is_counted 65443 (after_number 7 no_statistics) ≡ false }
    ensures alone { (after_numbers (7 ∷ 5000 ∷ []) no_statistics).received ≡ 1 }
    ensures anew { after_numbers (7 ∷ 8 ∷ 5000 ∷ 5001 ∷ []) no_statistics
        ≡ after_number 5001 no_statistics }
    ensures other { (after_numbers (7 ∷ 5000 ∷ 9001 ∷ []) no_statistics).highest ≡ 7 }
{}

/// Lost packets in 24 bits, the part of them since a report, and sixteen times the jitter.
pub fn losses_and_jitter()
    ensures none { lost_of 5 5 ≡ pos 0 }
    ensures one { lost_of 5 4 ≡ pos 1 }
    ensures twice { lost_of 4 6 ≡ negsuc 1 }
    ensures most { lost_of 0x100_0000 1 ≡ pos 0x7f_ffff }
    ensures least { lost_of 1 0x100_0001 ≡ negsuc 0x7f_ffff }
    ensures quarter { fraction_of 8 6 ≡ 64 }
    ensures third { fraction_of 3 2 ≡ 85 }
    ensures all { fraction_of 3 0 ≡ 255 }
    ensures more { fraction_of 3 4 ≡ 0 }
    ensures nothing { fraction_of 0 0 ≡ 0 }
    ensures first { jitter_after None 1000 0 ≡ 0 }
    ensures apart { jitter_after (Some 1000) 1160 0 ≡ 160 }
    ensures before { jitter_after (Some 1160) 1000 160 ≡ 310 }
    ensures same { jitter_after (Some 1000) 1000 160 ≡ 150 }
    ensures rounded { jitter_after (Some 1000) 1000 8 ≡ 7 }
    ensures round { jitter_after (Some 0xffff_fff0) 0x10 0 ≡ 32 }
{}

/// A report of four packets of five, and the next one, before which one of three came.
pub fn reports()
    ensures first { report_block 9 0 0 (after_numbers (65534 ∷ 0 ∷ 65535 ∷ 2 ∷ []) no_statistics)
        ≡ record {
          ssrc = 9;
          fraction_lost = 51;
          lost = pos 1;
          highest = 0x1_0002;
          jitter = 0;
          last_sender_report = 0;
          delay = 0;
        } }
    ensures next { (report_block 9 0 0 (after_numbers (5 ∷ [])
        (after_report (after_numbers (65534 ∷ 0 ∷ 65535 ∷ 2 ∷ []) no_statistics)))).fraction_lost
        ≡ 170 }
    ensures in_all { (report_block 9 0 0 (after_numbers (5 ∷ [])
        (after_report (after_numbers (65534 ∷ 0 ∷ 65535 ∷ 2 ∷ []) no_statistics)))).lost
        ≡ pos 3 }
{}

/// A PLI, a FIR and a receiver report as in the figures of RFC 4585, 6.1, RFC 5104, 4.3.1, and RFC
/// 3550, 6.4.2; lost packets in 24 bits; what is none of them.
pub fn feedback()
    ensures pli { picture_loss_bytes (record { sender = 0x01020304; media = 0xa1a2a3a4 })
        ≡ 0x81 ∷ 0xce ∷ 0x00 ∷ 0x02 ∷ 0x01 ∷ 0x02 ∷ 0x03 ∷ 0x04 ∷ 0xa1 ∷ 0xa2 ∷ 0xa3 ∷ 0xa4 ∷ [] }
    ensures fir { intra_request_bytes (record { sender = 1; media = 0xa1a2a3a4; number = 7 })
        ≡ 0x84 ∷ 0xce ∷ 0x00 ∷ 0x04 ∷ 0x00 ∷ 0x00 ∷ 0x00 ∷ 0x01 ∷ 0x00 ∷ 0x00 ∷ 0x00 ∷ 0x00
        ∷ 0xa1 ∷ 0xa2 ∷ 0xa3 ∷ 0xa4 ∷ 0x07 ∷ 0x00 ∷ 0x00 ∷ 0x00 ∷ [] }
    ensures report { receiver_report_bytes (record {
      sender = 1;
      block = record {
        ssrc = 2;
        fraction_lost = 0x40;
        lost = negsuc 1;
        highest = 0x00020003;
        jitter = 0x44;
        last_sender_report = 0xa1a2a3a4;
        delay = 0x00010000;
      };
    }) ≡ 0x81 ∷ 0xc9 ∷ 0x00 ∷ 0x07 ∷ 0x00 ∷ 0x00 ∷ 0x00 ∷ 0x01 ∷ 0x00 ∷ 0x00 ∷ 0x00 ∷ 0x02
        ∷ 0x40 ∷ 0xff ∷ 0xff ∷ 0xfe ∷ 0x00 ∷ 0x02 ∷ 0x00 ∷ 0x03 ∷ 0x00 ∷ 0x00 ∷ 0x00 ∷ 0x44
        ∷ 0xa1 ∷ 0xa2 ∷ 0xa3 ∷ 0xa4 ∷ 0x00 ∷ 0x01 ∷ 0x00 ∷ 0x00 ∷ [] }
    ensures read { receiver_report_of (0x81 ∷ 0xc9 ∷ 0x00 ∷ 0x07 ∷ 0x00 ∷ 0x00 ∷ 0x00 ∷ 0x01 ∷ 0x00
        ∷ 0x00 ∷ 0x00 ∷ 0x02 ∷ 0x40 ∷ 0xff ∷ 0xff ∷ 0xfe ∷ 0x00 ∷ 0x02 ∷ 0x00 ∷ 0x03 ∷ 0x00 ∷ 0x00
        ∷ 0x00 ∷ 0x44 ∷ 0xa1 ∷ 0xa2 ∷ 0xa3 ∷ 0xa4 ∷ 0x00 ∷ 0x01 ∷ 0x00 ∷ 0x00 ∷ [])
        ≡ Some (record {
          sender = 1;
          block = record {
            ssrc = 2;
            fraction_lost = 0x40;
            lost = negsuc 1;
            highest = 0x00020003;
            jitter = 0x44;
            last_sender_report = 0xa1a2a3a4;
            delay = 0x00010000;
          };
        }) }
    ensures most { lost_word (pos 0x7f_ffff) ≡ 0x7f_ffff }
    ensures past { lost_word (pos 0x80_0000) ≡ 0x7f_ffff }
    ensures least { lost_word (negsuc 0x7f_ffff) ≡ 0x80_0000 }
    ensures below { lost_in 0x80_0000 ≡ negsuc 0x7f_ffff }
    ensures other { picture_loss_of (0x81 ∷ 0xcd ∷ 0x00 ∷ 0x02 ∷ 0x00 ∷ 0x00 ∷ 0x00 ∷ 0x01 ∷ 0x00
        ∷ 0x00 ∷ 0x00 ∷ 0x02 ∷ []) ≡ None }
    ensures short { picture_loss_of (0x81 ∷ 0xce ∷ 0x00 ∷ 0x02 ∷ 0x00 ∷ 0x00 ∷ 0x00 ∷ 0x01 ∷ [])
        ≡ None }
    ensures no_request { intra_request_of [] ≡ None }
    ensures no_report { receiver_report_of (0x80 ∷ 0xc9 ∷ 0x00 ∷ 0x01 ∷ 0x00 ∷ 0x00 ∷ 0x00 ∷ 0x01 ∷ [])
        ≡ None }
    ensures pli_fits { PictureLossFits (record { sender = 0xffff_ffff; media = 0xffff_ffff }) }
    ensures fir_fits { IntraRequestFits (record { sender = 0; media = 0xffff_ffff; number = 255 }) }
    ensures report_fits { ReceiverReportFits (record {
      sender = 0xffff_ffff;
      block = record {
        ssrc = 0xffff_ffff;
        fraction_lost = 255;
        lost = negsuc 0x7f_ffff;
        highest = 0xffff_ffff;
        jitter = 0xffff_ffff;
        last_sender_report = 0xffff_ffff;
        delay = 0xffff_ffff;
      };
    }) }
{}

/// Pairs by the bits of RFC 4585, 6.2.1: numbers up to sixteen behind, too far, round 65535, back and
/// twice; pairs that have no room; the numbers that a pair asks for, and these in memory.
pub fn nack_pairs_of_numbers()
    ensures near { nack_pairs 9 (5 ∷ 6 ∷ 21 ∷ []) ≡ record { first = 5; following = 0x8001 } ∷ [] }
    ensures far { nack_pairs 9 (5 ∷ 22 ∷ [])
        ≡ record { first = 5; following = 0 } ∷ record { first = 22; following = 0 } ∷ [] }
    ensures round { nack_pairs 9 (65535 ∷ 0 ∷ []) ≡ record { first = 65535; following = 1 } ∷ [] }
    ensures back { nack_pairs 9 (5 ∷ 8 ∷ 6 ∷ [])
        ≡ record { first = 5; following = 4 } ∷ record { first = 6; following = 0 } ∷ [] }
    ensures twice { nack_pairs 9 (5 ∷ 5 ∷ [])
        ≡ record { first = 5; following = 0 } ∷ record { first = 5; following = 0 } ∷ [] }
    ensures one { nack_pairs 1 (5 ∷ 6 ∷ 23 ∷ []) ≡ record { first = 5; following = 1 } ∷ [] }
    ensures none { nack_pairs 9 [] ≡ [] }
    ensures all { nack_count 9 (5 ∷ 6 ∷ 23 ∷ []) ≡ 3 }
    ensures first { nack_count 1 (5 ∷ 6 ∷ 23 ∷ []) ≡ 2 }
    ensures asked { pair_numbers (record { first = 5; following = 0x8001 }) ≡ 5 ∷ 6 ∷ 21 ∷ [] }
    ensures asked_round { pair_numbers (record { first = 65535; following = 3 })
        ≡ 65535 ∷ 0 ∷ 1 ∷ [] }
    ensures alone { pair_numbers (record { first = 7; following = 0 }) ≡ 7 ∷ [] }
    ensures no_room { pairs_room 15 ≡ 0 }
    ensures room { pairs_room 16 ≡ 1 }
    ensures cut { pairs_room 23 ≡ 2 }
    ensures most { pairs_room 0x10_0000 ≡ 65533 }
    ensures copied { filled_from 0 (5 ∷ 6 ∷ []) (1 ∷ 2 ∷ 3 ∷ []) ≡ 5 ∷ 6 ∷ 3 ∷ [] }
    ensures copied_first { filled_from 0 (5 ∷ 6 ∷ []) (1 ∷ []) ≡ 5 ∷ [] }
    ensures copied_behind { filled_from 1 (5 ∷ 6 ∷ []) (1 ∷ 2 ∷ []) ≡ 1 ∷ 5 ∷ [] }
{}

/// A generic NACK as in the figures of RFC 4585, 6.1 and 6.2.1; what is none: another format, packet
/// type or length, and no pair; what is written, and isn't.
pub fn generic_nacks()
    ensures bytes { nack_bytes (record {
      sender = 0x01020304;
      media = 0xa1a2a3a4;
      pairs = record { first = 5; following = 0x8001 }
          ∷ record { first = 0x1234; following = 0 } ∷ [];
    }) ≡ 0x81 ∷ 0xcd ∷ 0x00 ∷ 0x04 ∷ 0x01 ∷ 0x02 ∷ 0x03 ∷ 0x04 ∷ 0xa1 ∷ 0xa2 ∷ 0xa3 ∷ 0xa4
        ∷ 0x00 ∷ 0x05 ∷ 0x80 ∷ 0x01 ∷ 0x12 ∷ 0x34 ∷ 0x00 ∷ 0x00 ∷ [] }
    ensures read { nack_of (0x81 ∷ 0xcd ∷ 0x00 ∷ 0x04 ∷ 0x01 ∷ 0x02 ∷ 0x03 ∷ 0x04 ∷ 0xa1 ∷ 0xa2
        ∷ 0xa3 ∷ 0xa4 ∷ 0x00 ∷ 0x05 ∷ 0x80 ∷ 0x01 ∷ 0x12 ∷ 0x34 ∷ 0x00 ∷ 0x00 ∷ [])
        ≡ Some (record {
          sender = 0x01020304;
          media = 0xa1a2a3a4;
          pairs = record { first = 5; following = 0x8001 }
              ∷ record { first = 0x1234; following = 0 } ∷ [];
        }) }
    ensures other_format { nack_of (0x8f ∷ 0xcd ∷ 0x00 ∷ 0x03 ∷ 0x00 ∷ 0x00 ∷ 0x00 ∷ 0x01 ∷ 0x00
        ∷ 0x00 ∷ 0x00 ∷ 0x02 ∷ 0x00 ∷ 0x05 ∷ 0x00 ∷ 0x00 ∷ []) ≡ None }
    ensures other_type { nack_of (0x81 ∷ 0xce ∷ 0x00 ∷ 0x03 ∷ 0x00 ∷ 0x00 ∷ 0x00 ∷ 0x01 ∷ 0x00
        ∷ 0x00 ∷ 0x00 ∷ 0x02 ∷ 0x00 ∷ 0x05 ∷ 0x00 ∷ 0x00 ∷ []) ≡ None }
    ensures other_length { nack_of (0x81 ∷ 0xcd ∷ 0x00 ∷ 0x04 ∷ 0x00 ∷ 0x00 ∷ 0x00 ∷ 0x01 ∷ 0x00
        ∷ 0x00 ∷ 0x00 ∷ 0x02 ∷ 0x00 ∷ 0x05 ∷ 0x00 ∷ 0x00 ∷ []) ≡ None }
    ensures no_pair { nack_of (0x81 ∷ 0xcd ∷ 0x00 ∷ 0x02 ∷ 0x00 ∷ 0x00 ∷ 0x00 ∷ 0x01 ∷ 0x00
        ∷ 0x00 ∷ 0x00 ∷ 0x02 ∷ []) ≡ None }
    ensures written { IsNackWritten 1 2 (5 ∷ 22 ∷ []) (9 ∷ 9 ∷ 9 ∷ 9 ∷ 9 ∷ 9 ∷ 9 ∷ 9 ∷ 9 ∷ 9 ∷ 9
        ∷ 9 ∷ 9 ∷ 9 ∷ 9 ∷ 9 ∷ 9 ∷ []) (0x81 ∷ 0xcd ∷ 0x00 ∷ 0x03 ∷ 0x00 ∷ 0x00 ∷ 0x00 ∷ 0x01
        ∷ 0x00 ∷ 0x00 ∷ 0x00 ∷ 0x02 ∷ 0x00 ∷ 0x05 ∷ 0x00 ∷ 0x00 ∷ 9 ∷ [])
        (Ok (record { size = 16; count = 1 })) }
    ensures unwritten { IsNackWritten 1 2 (5 ∷ []) (9 ∷ []) (9 ∷ [])
        (Err (RtpWriteError.NoRoom 16)) }
    ensures nothing { IsNackWritten 1 2 [] (9 ∷ []) (9 ∷ []) (Ok (record { size = 0; count = 0 })) }
    ensures fits { NackFits (record {
      sender = 0xffff_ffff;
      media = 0xffff_ffff;
      pairs = record { first = 0xffff; following = 0xffff } ∷ [];
    }) }
{}
