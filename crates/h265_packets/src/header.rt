//! Headers made from others, and the fields of a PACI packet (RFC 7798, 1.1.4 and 4.4.4).

ghost use Rattle.std.specs.Prelude.{◌≡◌, ◌+◌, ◌*◌, ◌<◌};
ghost use Rattle.h26x_core.specs.Word.{field};
ghost use Rattle.h265_packets.specs.Header.{with_type};

/// The first byte of a header with this F and this type; the highest bit of the layer is that of
/// another first byte (RFC 7798, 1.1.4).
pub fn high_byte(f: u8, nalu_type: u8, layer_of: u8) -> u8
    requires f_in { f < 2 }
    requires type_in { nalu_type < 64 }
    ensures { result ≡ f * 128 + with_type layer_of nalu_type }
{
    f * 128 + nalu_type * 2 + (layer_of & 1)
}

/// A of a PACI packet's fields, the F of the unit within (RFC 7798, 4.4.4).
pub fn paci_f(fields: u16) -> u8
    ensures { result ≡ field fields 15 15 }
{
    (fields >> 15) as u8
}

/// cType of a PACI packet's fields, the type of the unit within (RFC 7798, 4.4.4).
pub fn paci_type(fields: u16) -> u8
    ensures { result ≡ field fields 14 9 }
{
    (fields >> 9 & 0x3f) as u8
}

/// PHSsize of a PACI packet's fields, the bytes of the extension (RFC 7798, 4.4.4).
pub fn paci_size(fields: u16) -> u8
    ensures { result ≡ field fields 8 4 }
{
    (fields >> 4 & 0x1f) as u8
}
