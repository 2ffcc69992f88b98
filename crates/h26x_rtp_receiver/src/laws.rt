//! Laws of the definitions, each the contract of a function without a result.

ghost use Rattle.std.specs.Prelude.{◌≡◌, ◌^◌, ◌<◌, ℕ, true, false, List, Ok, Some, None};
ghost use Rattle.h26x_access_units.specs.Account.{ReceiverCall, AreReceiverCalls};
ghost use Rattle.h26x_rtp.specs.Datagram.{DatagramParts};
ghost use Rattle.h26x_rtp.specs.Red.{RedParts, red_of};
ghost use Rattle.h26x_rtp.specs.Rtx.{retransmission_of};
ghost use Rattle.h26x_rtp.specs.Words.{word_at};
ghost use Rattle.h26x_rtp_receiver.specs.Original.{original_of, resent_type, is_type, recovered, bearing_payload, BringsOfNumber};
ghost use Rattle.h26x_rtp_receiver.specs.RtpCalls.{RtpCall, AreRtpCalls};
ghost use Rattle.h26x_rtp_receiver.specs.RtpReception.{RtpReception};

use crate::payload_types::RtpPayloadTypes;
use h26x_rtp::laws as rtp_laws;

/// A retransmission brings what its original brings, recovered (RFC 4588, 4).
pub fn retransmissions_bring_their_originals()
    ensures { (types : RtpPayloadTypes) (it : DatagramParts) (payload_type sequence ssrc : ℕ) →
        it.header.sequence < 2 ^ 16 →
        resent_type types payload_type ≡ Some it.header.payload_type →
        resent_type types it.header.payload_type ≡ None →
        original_of types (retransmission_of it payload_type sequence ssrc)
        ≡ recovered (original_of types it) }
{}

/// A redundant payload brings what its primary block would bring by itself (RFC 2198, 3).
pub fn redundant_payloads_bring_their_primary_blocks()
    ensures { (types : RtpPayloadTypes) (it : DatagramParts) (payload_type : ℕ) (bytes : List ℕ)
        (red : RedParts) → red_of bytes ≡ Ok red → is_type types.red payload_type ≡ true →
        is_type types.red red.payload_type ≡ false → resent_type types payload_type ≡ None →
        resent_type types red.payload_type ≡ None →
        original_of types (bearing_payload it payload_type bytes)
        ≡ original_of types (bearing_payload it red.payload_type red.primary) }
{}

/// Each packet of the stream's own has its own number in it, whatever it bears, and a retransmission
/// the one that it says; what bears nothing of the codec has no payload (RFC 3550, 5.1; RFC 4588, 4).
pub fn packets_have_their_numbers()
    ensures own { (types : RtpPayloadTypes) (it : DatagramParts) →
        resent_type types it.header.payload_type ≡ None →
        BringsOfNumber it.header.sequence (original_of types it) }
    ensures resent { (types : RtpPayloadTypes) (it : DatagramParts) (payload_type : ℕ) →
        resent_type types it.header.payload_type ≡ Some payload_type →
        BringsOfNumber (word_at it.payload 0) (original_of types it) }
{}

/// Whatever datagrams come, and whatever is called: a receiver of datagrams is a receiver of access
/// units that was given the packets that they brought, each at its tick, in this order, and no other.
/// So what the laws of `h26x_access_units` say of any calls is true of it.
pub fn a_receiver_is_given_the_originals()
    ensures { (s new : RtpReception) (calls : List RtpCall) (given : List ReceiverCall) →
        AreRtpCalls s calls given new → AreReceiverCalls s.reception given new.reception }
{
    rtp_laws::one_reading_of_a_packet();
    rtp_laws::one_reading_of_a_redundant_payload();
}
