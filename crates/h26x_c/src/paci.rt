//! The call that packs a PACI packet.

ghost use Rattle.std.specs.Prelude.{◌≡◌, ◌≢◌, ◌⊎◌, ◌≤◌, ◌<◌, length};
ghost use Rattle.h265_packets.specs.Paci.{paci_packet};
ghost use Rattle.h26x_codes.specs.Codes.{ok, short_packet, extension_too_long, out_of_memory};
ghost use Rattle.h26x_codes.specs.Copies.{with_front};

use h26x_codes::code::{EXTENSION_TOO_LONG, OK, OUT_OF_MEMORY, SHORT_PACKET};
use h26x_codes::copy::copy_where_room;
use h26x_core::PacketError;
use h265_packets::H265PACIPacket;
use std::alloc::Global;

/// Packs a unit with an extension of its header, and copies the packet where there is room for it.
#[unsafe(no_mangle)]
pub extern "C" fn h26x_h265_paci_packet(
    alloc: Global,
    unit: &[u8],
    extension: &[u8],
    to: &mut [u8],
    len: &mut usize,
) -> u32
    ensures short { length unit.now < 2 → result ≡ short_packet }
    ensures too_long { 2 ≤ length unit.now → 31 < length extension.now →
        result ≡ extension_too_long }
    ensures answer { 2 ≤ length unit.now → length extension.now ≤ 31 →
        (result ≡ ok) ⊎ (result ≡ out_of_memory) }
    ensures len { result ≡ ok → len.new ≡ length (paci_packet unit.now extension.now) }
    ensures copied { result ≡ ok → to.new ≡ with_front (paci_packet unit.now extension.now) to.old }
    ensures kept { result ≢ ok → (to.new ≡ to.old) × (len.new ≡ len.old) }
{
    match H265PACIPacket::packetize(alloc, unit, extension, &mut Vec::new(alloc)) {
        Ok(packet) => {
            *len = copy_where_room(&packet, to);
            OK
        }
        Err(PacketError::ErrShortPacket) => SHORT_PACKET,
        Err(PacketError::ErrH265PACIPHESTooLong) => EXTENSION_TOO_LONG,
        Err(_) => OUT_OF_MEMORY,
    }
}
