//! Packets that are put in order.

ghost use Rattle.std.specs.Prelude.{◌≡◌, ℕ};
ghost use Rattle.h26x_reorder.specs.Rtp.{RtpBody};
ghost use Rattle.h26x_reorder.specs.ReorderBuffer.{numbered_packet};

use crate::buffer::HeldPacket;
use crate::packet::RtpPacket;

/// What has a sequence number: a packet that is held, or a reference to one of a list.
pub(crate) trait Numbered: Drop {
    ghost numbered: { Self → ℕ × RtpBody };

    /// Its sequence number.
    fn sequence(&self) -> u16
        ensures { result ≡ (numbered self.now).0 };
}

impl Numbered for HeldPacket {
    ghost numbered = { numbered_packet };

    #[inline]
    fn sequence(&self) -> u16 {
        self.sequence
    }
}

impl<'a, 'b> Numbered for &'a RtpPacket<'b> {
    ghost numbered = { λ p. p.now };

    #[inline]
    fn sequence(&self) -> u16 {
        let packet: &RtpPacket<'b> = *self;
        packet.sequence
    }
}
