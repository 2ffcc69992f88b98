//! How PACI packets are packed (RFC 7798, 4.4.4).

ghost use Rattle.std.specs.Prelude.{◌≡◌, ◌≤◌, length, slice_index, IfOk};
ghost use Rattle.h265_packets.specs.Paci.{paci_fields, paci_packet};

use crate::header::high_byte;
use h26x_core::H265NALUHeader;
use std::alloc::{AllocError, Global};

/// The type of a PACI packet (RFC 7798, 4.4.4).
const PACI_TYPE: u8 = 50;

/// How many bytes a unit's header has (RFC 7798, 1.1.4).
pub(crate) const HEADER_SIZE: usize = 2;

/// How many bytes the word of the fields has (RFC 7798, 4.4.4).
const FIELDS_SIZE: usize = 2;

/// How many bytes of an extension are TSCI (RFC 7798, 4.5).
const TSCI_SIZE: usize = 3;

/// The fields of the PACI packet of this unit and this extension, with F0 set where the extension
/// is long enough for TSCI (RFC 7798, 4.4.4).
fn fields_of(unit: &[u8], phes: &[u8]) -> u16
    requires unit { 2 ≤ length unit.now }
    requires phes { length phes.now ≤ 31 }
    ensures { result ≡ paci_fields (slice_index unit.now 0) phes.now }
{
    let header = H265NALUHeader::new(unit[0], unit[1]);
    let a = if header.f() { 1 << 15 } else { 0 };
    let f0 = if phes.len() >= TSCI_SIZE { 1 << 3 } else { 0 };
    a + (u16::from(header.nalu_type()) << 9) + ((phes.len() as u16) << 4) + f0
}

/// The PACI packet of this unit and this extension.
pub fn packet_of(alloc: Global, unit: &[u8], phes: &[u8]) -> Result<Vec<u8>, AllocError>
    requires unit { 2 ≤ length unit.now }
    requires phes { length phes.now ≤ 31 }
    ensures { IfOk result (λ packet. packet.items ≡ paci_packet unit.now phes.now) }
{
    let len = unit.len().saturating_add(FIELDS_SIZE + phes.len());
    let mut packet = Vec::with_capacity(alloc, len)?;
    packet.extend_from_slice(&[high_byte(0, PACI_TYPE, unit[0]), unit[1]])?;
    packet.extend_from_slice(&fields_of(unit, phes).to_be_bytes())?;
    packet.extend_from_slice(phes)?;
    packet.extend_from_slice(&unit[HEADER_SIZE..])?;
    Ok(packet)
}
