//! The header of sets that share a packet, as a setting of a packetizer.

ghost use Rattle.std.specs.Prelude.{◌≡◌, ℕ, Bool, List};
ghost use Rattle.h26x_model.specs.Payload.Format.{Format};

use crate::packetizer::PayloadPacketizer;
use h26x_payload::PayloadFormat;

/// A codec whose sets in one packet have the header of the unit behind them, or one of their own where
/// that is set (RFC 7798, 4.4.2).
pub trait LowestHeaderFormat: PayloadFormat {
    ghost with_lowest_header_of: { Self → Bool → Self };

    /// The same setting, with that header or without.
    fn with_lowest_header(self, lowest_header: bool) -> Self
        ensures { result ≡ with_lowest_header_of self lowest_header };

    // The header changes nothing of what a unit is.
    ghost kind_kept: { (codec : Self) (lowest_header : Bool) (unit : List ℕ) →
        (Self.format codec).kind unit
        ≡ (Self.format (with_lowest_header_of codec lowest_header)).kind unit };

    // Packets bear numbers as before.
    ghost donl_kept: { (codec : Self) (lowest_header : Bool) → (Self.format codec).has_donl
        ≡ (Self.format (with_lowest_header_of codec lowest_header)).has_donl };
}

impl<C: LowestHeaderFormat> PayloadPacketizer<C> {
    /// Sets whether parameter sets in one packet have the header that RFC 7798, 4.4.2 asks for: F where
    /// a set has it, and the lowest layer and temporal id of the sets; else they have that of the unit
    /// behind them. Sets that wait and the next number stay.
    pub fn with_lowest_header(&mut self, lowest_header: bool)
        ensures { self.new ≡ record self.old {
          codec = C.with_lowest_header_of self.old.codec lowest_header;
        } }
    {
        self.codec = self.codec.with_lowest_header(lowest_header);
    }
}
