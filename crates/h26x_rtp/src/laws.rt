//! Laws of the definitions, each the contract of a function without a result.

ghost use Rattle.std.specs.Prelude.{◌≡◌, ◌+◌, ◌^◌, ◌<◌, ◌≤◌, ℕ, Bool, true, false, List, [], ◌∷◌, ◌++◌, Ok, Err, Some, take, drop, length};
ghost use Rattle.std.specs.List.{AllByRecursion, flat_map};
ghost use Rattle.h26x_rtp.specs.Datagram.{HeaderParts, DatagramParts, AreBytes, HeaderFits, IsDatagram, datagram_header};
ghost use Rattle.h26x_rtp.specs.Reading.{datagram_of};
ghost use Rattle.h26x_rtp.specs.Elements.{ElementParts, ElementFits, PlacedParts, IsFirstPlaced, element_bytes, elements_in, first_placed};
ghost use Rattle.h26x_rtp.specs.Feedback.{PictureLossFits, picture_loss_bytes, picture_loss_of, IntraRequestFits, intra_request_bytes, intra_request_of, ReceiverReportFits, receiver_report_bytes, receiver_report_of};
ghost use Rattle.h26x_rtp.specs.Nack.{IsNackWritten, nack_count, nack_of, nack_pairs, nack_within, pair_numbers};
ghost use Rattle.h26x_rtp.specs.Red.{RedParts, IsRed, red_of};
ghost use Rattle.h26x_rtp.specs.Rtcp.{IsRtcp};
ghost use Rattle.h26x_rtp.specs.Rtx.{IsOriginal, retransmission_of};
ghost use Rattle.h26x_rtp.specs.Statistics.{AreAllCounted, AreNear, after_numbers, no_statistics, highest_number};
ghost use Rattle.h26x_rtp.specs.Writing.{IsDatagramWritten, IsHeaderWritten, told_size};

use crate::elements::{ElementForm, RtpElementError};
use crate::error::RtpWriteError;
use crate::feedback::{FullIntraRequest, PictureLoss, ReceiverReport};
use crate::nack::NackWritten;

/// Bytes are at most one packet, and that is what they are read as; bytes that are none are refused
/// (RFC 3550, 5.1).
pub fn one_reading_of_a_packet()
    ensures read { (bytes : List ℕ) (it : DatagramParts) → IsDatagram bytes it →
        datagram_of bytes ≡ Ok it }
    ensures spelled { (bytes : List ℕ) (it : DatagramParts) → AreBytes bytes →
        datagram_of bytes ≡ Ok it → IsDatagram bytes it }
    ensures one { (bytes : List ℕ) (a b : DatagramParts) → IsDatagram bytes a →
        IsDatagram bytes b → a ≡ b }
{}

/// What is written of a packet is read as the same packet (RFC 3550, 5.1).
pub fn written_packets_are_read()
    ensures { (it : DatagramParts) (old new : List ℕ) (size : ℕ) →
        IsDatagramWritten it old new (Ok size) → datagram_of (take size new) ≡ Ok it }
{}

/// What is read of bytes is written as these bytes, and refused only where there is no room (RFC
/// 3550, 5.1).
pub fn read_packets_are_written()
    ensures same { (bytes : List ℕ) (it : DatagramParts) (old new : List ℕ) (size : ℕ) →
        AreBytes bytes → datagram_of bytes ≡ Ok it → IsDatagramWritten it old new (Ok size) →
        take size new ≡ bytes }
    ensures refused { (bytes : List ℕ) (it : DatagramParts) (old new : List ℕ)
        (e : RtpWriteError) → AreBytes bytes → datagram_of bytes ≡ Ok it →
        IsDatagramWritten it old new (Err e) → e ≡ RtpWriteError.NoRoom (told_size bytes) }
{}

/// A retransmission packet bears its original without padding, and no other; and it is the
/// retransmission of what it bears (RFC 4588, 4).
pub fn retransmissions_bear_originals()
    ensures bears { (it : DatagramParts) (payload_type sequence ssrc : ℕ) →
        HeaderFits it.header → IsOriginal (retransmission_of it payload_type sequence ssrc)
        it.header.payload_type it.header.ssrc (record it { padding = [] }) }
    ensures only { (rtx a b : DatagramParts) (payload_type ssrc : ℕ) →
        IsOriginal rtx payload_type ssrc a → IsOriginal rtx payload_type ssrc b → a ≡ b }
    ensures again { (rtx it : DatagramParts) (payload_type ssrc : ℕ) →
        IsOriginal rtx payload_type ssrc it → rtx.padding ≡ [] →
        retransmission_of it rtx.header.payload_type rtx.header.sequence rtx.header.ssrc ≡ rtx }
{}

/// Bytes are at most one redundant payload, and that is what they are read as; bytes that are none
/// are refused (RFC 2198, 3).
pub fn one_reading_of_a_redundant_payload()
    ensures read { (bytes : List ℕ) (it : RedParts) → IsRed bytes it → red_of bytes ≡ Ok it }
    ensures spelled { (bytes : List ℕ) (it : RedParts) → AreBytes bytes → red_of bytes ≡ Ok it →
        IsRed bytes it }
    ensures one { (bytes : List ℕ) (a b : RedParts) → IsRed bytes a → IsRed bytes b → a ≡ b }
{}

/// A header written right before a payload makes a packet of both (RFC 3550, 5.1).
pub fn headers_before_payloads_make_packets()
    ensures bytes { (it : HeaderParts) (padded : Bool) (place start : ℕ) (old new : List ℕ) →
        IsHeaderWritten it padded place old new (Ok start) →
        drop start new ≡ datagram_header it padded ++ drop place old }
    ensures packet { (it : HeaderParts) (place start : ℕ) (old new : List ℕ) →
        IsHeaderWritten it false place old new (Ok start) → datagram_of (drop start new)
        ≡ Ok (record { header = it; payload = drop place old; padding = [] }) }
{}

/// RTCP is told from every RTP packet whose payload type isn't one of 64 to 95 (RFC 5761, 4).
pub fn rtcp_is_no_packet_of_other_payload_types()
    ensures { (bytes : List ℕ) (it : DatagramParts) → IsDatagram bytes it → IsRtcp bytes →
        (it.header.marker ≡ true) × (64 ≤ it.header.payload_type)
        × (it.header.payload_type ≤ 95) }
{}

/// Elements that are written one behind the other, and padding between them, are read as the same
/// (RFC 8285, 4.2 and 4.3).
pub fn written_elements_are_read()
    ensures element { (form : ElementForm) (it : ElementParts) (behind : List ℕ) →
        ElementFits form it → elements_in form (element_bytes form it ++ behind)
        ≡ it ∷ elements_in form behind }
    ensures padding { (form : ElementForm) (behind : List ℕ) →
        elements_in form (0 ∷ behind) ≡ elements_in form behind }
    ensures none { (form : ElementForm) → elements_in form [] ≡ [] }
{}

/// The elements of bytes that begin at a place are those that are found one by one, each where it
/// stands; one that fits, and isn't there wholly, passes the end (RFC 8285, 4.2 and 4.3).
pub fn elements_are_found_one_by_one()
    ensures first { (form : ElementForm) (place : ℕ) (bytes : List ℕ) (it : PlacedParts) →
        first_placed form place bytes ≡ Ok (Some it) → IsFirstPlaced form place bytes it }
    ensures none { (form : ElementForm) (place : ℕ) (bytes : List ℕ) →
        ((it : PlacedParts) → first_placed form place bytes ≡ Ok (Some it) → ⊥) →
        elements_in form bytes ≡ [] }
    ensures past { (form : ElementForm) (place size : ℕ) (it : ElementParts) → ElementFits form it →
        0 < size → size < length (element_bytes form it) →
        first_placed form place (take size (element_bytes form it))
        ≡ Err RtpElementError.PastTheEnd }
{}

/// Of packets whose numbers, not going round, are near to each other, the extended highest number is
/// that of the highest; those from the first to it are expected, and all that came are received (RFC
/// 3550, 6.4.1 and A.3).
pub fn statistics_are_of_all_packets()
    ensures { (first : ℕ) (numbers : List ℕ) → first < 2 ^ 16 → AreNear first numbers →
        highest_number first numbers < 2 ^ 63 → length numbers < 2 ^ 63 →
        AreAllCounted first (highest_number first numbers) (length numbers + 1)
        (after_numbers (first ∷ numbers) no_statistics) }
{}

/// What is written of a report or a request is read as the same (RFC 3550, 6.4.2; RFC 4585, 6.3.1; RFC
/// 5104, 4.3.1).
pub fn written_feedback_is_read()
    ensures picture_loss { (it : PictureLoss) → PictureLossFits it →
        picture_loss_of (picture_loss_bytes it) ≡ Some it }
    ensures intra_request { (it : FullIntraRequest) → IntraRequestFits it →
        intra_request_of (intra_request_bytes it) ≡ Some it }
    ensures receiver_report { (it : ReceiverReport) → ReceiverReportFits it →
        receiver_report_of (receiver_report_bytes it) ≡ Some it }
{}

/// A generic NACK that is written is read as the same; its pairs ask for exactly the first ones of
/// the numbers, in their order, for at least one, and for all where their pairs have room (RFC 4585,
/// 6.2.1).
pub fn written_nacks_ask_for_their_numbers()
    ensures read { (sender media : ℕ) (numbers old new : List ℕ) (written : NackWritten) →
        sender < 2 ^ 32 → media < 2 ^ 32 → AllByRecursion (λ number. number < 2 ^ 16) numbers →
        0 < length numbers → IsNackWritten sender media numbers old new (Ok written) →
        nack_of (take written.size new)
        ≡ Some (nack_within sender media numbers (length old)) }
    ensures asked { (most : ℕ) (numbers : List ℕ) →
        flat_map pair_numbers (nack_pairs most numbers) ≡ take (nack_count most numbers) numbers }
    ensures some { (most : ℕ) (numbers : List ℕ) → 0 < most → 0 < length numbers →
        0 < nack_count most numbers }
    ensures all { (most : ℕ) (numbers : List ℕ) →
        length (nack_pairs (length numbers) numbers) ≤ most →
        nack_count most numbers ≡ length numbers }
{}
