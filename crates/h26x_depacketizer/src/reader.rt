//! How one codec's packets are read.

ghost use Rattle.std.specs.Prelude.{◌≡◌, ℕ, Bool, List, IfOk, IfErr};
ghost use Rattle.h26x_model.specs.Payload.Facts.{IsPayloadFormat};
ghost use Rattle.h26x_model.specs.Payload.Reading.{Refused, is_start};
ghost use Rattle.h26x_depacketizer.specs.DepacketizerView.{IsReadAs};

use crate::aggregate::Aggregate;
use crate::parts::Parts;
use h26x_core::PacketError;

/// What sets one codec's depacketizer apart: what its packets are (RFC 6184, 5; RFC 7798, 4.4; RFC
/// 9328, 4.3), and which begin and end an access unit.
pub trait PacketReader: Aggregate {
    ghost begins: { Self → List ℕ → Bool };

    ghost ends: { Self → Bool → List ℕ → Bool };

    /// What a packet is, or why it is refused. It takes no memory.
    fn read(self, packet: &[u8]) -> Result<Parts<'_>, PacketError>
        ensures accepted { IfOk result (λ parts. IsReadAs (Self.format self) (Self.units self)
            packet.now parts) }
        ensures refused { IfErr result (λ e. (Self.format self).read packet.now ≡ Refused e) };

    /// Whether a packet may be the first of an access unit.
    fn may_begin(self, packet: &[u8]) -> bool
        ensures { result ≡ begins self packet.now };

    /// Whether a packet is the last of an access unit, with the marker bit of its RTP packet given.
    fn is_last(self, marker: bool, packet: &[u8]) -> bool
        ensures { result ≡ ends self marker packet.now };

    /// A law: whatever the setting, the format meets the facts on which the laws of every format stand.
    fn format_meets_the_facts()
        ensures { (codec : Self) → IsPayloadFormat (Self.format codec) };
}

/// Whether a packet is a fragment that starts, which gives up a run that is open.
pub fn starts_run<C: PacketReader>(codec: C, packet: &[u8]) -> bool
    ensures { result ≡ is_start ((C.format codec).read packet.now) }
{
    match codec.read(packet) {
        Ok(Parts::Fragment(fragment)) => fragment.start,
        Ok(_) | Err(_) => false,
    }
}
