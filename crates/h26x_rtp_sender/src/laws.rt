//! Laws of the definitions, each the contract of a function without a result.

ghost use Rattle.std.specs.Prelude.{◌≡◌, ◌+◌, ◌%◌, ◌^◌, ◌<◌, ◌≤◌, ◌==◌, ℕ, Bool, false, true, List, [], ◌∷◌, ◌++◌, Ok, Some, IfSome, drop, get_or, length};
ghost use Rattle.std.specs.List.{AllByRecursion};
ghost use Rattle.h26x_packetizer.specs.Buffer.{headed};
ghost use Rattle.h26x_rtp.specs.Datagram.{DatagramParts, HeaderFits, datagram_header, datagram_bytes};
ghost use Rattle.h26x_rtp.specs.Reading.{datagram_of};
ghost use Rattle.h26x_rtp.specs.Rtx.{IsOriginal};
ghost use Rattle.h26x_rtp_receiver.specs.Original.{bearing};
ghost use Rattle.h26x_rtp_receiver.specs.RtpReception.{RtpReception, Brings, brought};
ghost use Rattle.h26x_rtp_sender.specs.History.{AreHeldBefore, are_within, held_of, last_within};
ghost use Rattle.h26x_rtp_sender.specs.Receiving.{IsReceiverOf, IsReceiverBy};
ghost use Rattle.h26x_rtp_sender.specs.Sending.{headed_from, packet_again};
ghost use Rattle.h26x_rtp_sender.specs.Sent.{UnitParts, packet_header, packet_of, numbered_packets};

use crate::stream::RtpStream;
use h26x_rtp::laws as rtp_laws;
use h26x_rtp_receiver::laws as receiver_laws;

/// The packets of an access unit are as many as its payloads. Each bears the payload at its place, has
/// the number of the first and so many more, and only the last has the marker; and each is read as it
/// is (RFC 3550, 5.1).
pub fn packets_bear_their_payloads()
    ensures count { (unit : UnitParts) (first : ℕ) (payloads : List (List ℕ)) →
        length (numbered_packets unit first payloads) ≡ length payloads }
    ensures each { (unit : UnitParts) (first place : ℕ) (payloads : List (List ℕ)) →
        first < 2 ^ 16 → place < length payloads → drop place (numbered_packets unit first payloads)
        ≡ packet_of unit ((first + place) % 2 ^ 16) (place + 1 == length payloads)
        (get_or payloads place []) ∷ drop (place + 1) (numbered_packets unit first payloads) }
    ensures read { (unit : UnitParts) (first : ℕ) (payloads : List (List ℕ)) →
        HeaderFits (packet_header unit 0 false) → first < 2 ^ 16 →
        AllByRecursion (λ it. datagram_of (datagram_bytes it) ≡ Ok it)
        (numbered_packets unit first payloads) }
{
    rtp_laws::one_reading_of_a_packet();
}

/// Each header stands at the end of the headroom at its place, and from where it begins the bytes of
/// headroom and payload are the packet (RFC 3550, 5.1).
pub fn headers_stand_before_their_payloads()
    ensures place { (place : ℕ) (headers rooms : List (List ℕ)) → place < length headers →
        place < length rooms → get_or (headed_from 0 headers rooms) place []
        ≡ headed (get_or headers place []) (get_or rooms place []) }
    ensures packet { (it : DatagramParts) (room : List ℕ) (start : ℕ) → it.padding ≡ [] →
        start + length (datagram_header it.header false) ≡ length room →
        drop start (headed (datagram_header it.header false) room ++ it.payload)
        ≡ datagram_bytes it }
{}

/// What is held of packets is the end of them that is the longest of those that may be held; so what is
/// held after several access units is the end of all their packets.
pub fn the_last_packets_are_held()
    ensures end { (bound : ℕ) (packets : List DatagramParts) →
        (before : List DatagramParts) × (packets ≡ before ++ last_within bound packets) }
    ensures within { (bound : ℕ) (packets : List DatagramParts) →
        are_within bound (last_within bound packets) ≡ true }
    ensures longest { (bound : ℕ) (before rest : List DatagramParts) →
        are_within bound rest ≡ true → length rest ≤ length (last_within bound (before ++ rest)) }
    ensures again { (bound : ℕ) (packets more : List DatagramParts) →
        last_within bound (last_within bound packets ++ more)
        ≡ last_within bound (packets ++ more) }
{}

/// What is held ends with the number before that of the next packet, whatever is sent; a packet that is
/// held of a number has that number.
pub fn held_packets_have_their_numbers()
    ensures sent { (unit : UnitParts) (bound next : ℕ) (payloads : List (List ℕ))
        (packets : List DatagramParts) → next < 2 ^ 16 → AreHeldBefore next bound packets →
        AreHeldBefore ((next + length payloads) % 2 ^ 16) bound
        (last_within bound (packets ++ numbered_packets unit next payloads)) }
    ensures number { (number : ℕ) (packets : List DatagramParts) →
        IfSome (held_of number packets) (λ it. it.header.sequence ≡ number) }
{}

/// What goes again by RTX bears the packet that was sent, and no other (RFC 4588, 4).
pub fn packets_that_go_again_bear_what_was_sent()
    ensures bears { (rtx : RtpStream) (it : DatagramParts) → HeaderFits it.header →
        it.padding ≡ [] → IsOriginal (packet_again (Some rtx) it) it.header.payload_type
        it.header.ssrc it }
    ensures only { (rtx : RtpStream) (it other : DatagramParts) (payload_type ssrc : ℕ) →
        HeaderFits it.header → it.padding ≡ [] →
        IsOriginal (packet_again (Some rtx) it) it.header.payload_type it.header.ssrc other →
        other ≡ it }
{
    rtp_laws::retransmissions_bear_originals();
}

/// Each packet that is sent brings a receiver of the same settings its payload, by its number, with its
/// timestamp and marker, and so does what goes again for it by RTX (RFC 3550, 5.1; RFC 4588, 4). So by
/// the laws of `h26x_rtp_receiver` its receiver of access units is given the packets of the access
/// unit, whichever way each came.
pub fn receivers_are_brought_what_was_sent()
    ensures sent { (s : RtpReception) (unit : UnitParts) (number byte : ℕ) (marker : Bool)
        (bytes : List ℕ) → IsReceiverOf s unit → HeaderFits (packet_header unit number marker) →
        brought s (datagram_bytes (packet_of unit number marker (byte ∷ bytes)))
        ≡ Ok (Brings (packet_of unit number marker (byte ∷ bytes))
        (bearing false number (packet_header unit number marker) (byte ∷ bytes))) }
    ensures again { (s : RtpReception) (rtx : RtpStream) (unit : UnitParts) (number byte : ℕ)
        (marker : Bool) (bytes : List ℕ) → IsReceiverOf s unit → IsReceiverBy s rtx unit →
        HeaderFits (packet_header unit number marker) →
        HeaderFits (packet_again (Some rtx) (packet_of unit number marker [])).header →
        brought s (datagram_bytes (packet_again (Some rtx)
        (packet_of unit number marker (byte ∷ bytes))))
        ≡ Ok (Brings (packet_again (Some rtx) (packet_of unit number marker (byte ∷ bytes)))
        (bearing true number (packet_header unit number marker) (byte ∷ bytes))) }
{
    rtp_laws::one_reading_of_a_packet();
    receiver_laws::retransmissions_bring_their_originals();
}
