//! RTP payloads of H.266 payloads: units alone, in fragments, and parameter sets in one packet (RFC
//! 9328, 4.3 and 4.4).

ghost use Rattle.std.specs.Prelude.{◌≡◌, ◌+◌, ◌*◌, max, if◌then◌else◌};
ghost use Rattle.std.specs.List.{list_any};
ghost use Rattle.h26x_payload.specs.Sets.{sets_list};
ghost use Rattle.h266_payload.specs.H266 as spec;

use crate::codec::{H266, header_of, with_type};
use h26x_core::h266_types::{
    AGGREGATION_PACKET, AUD_NUT, FRAGMENTATION_UNIT, PPS_NUT, SPS_NUT, VPS_NUT,
};
use h26x_core::{CodecExtra, H266CodecExtra, H266FragmentationUnitHeader};
use h26x_cut::{UnitSlices, ZeroRule};
use h26x_packetizer::PayloadPacketizer;
use h26x_payload::{DonlFormat, PayloadFormat, Sets, UnitKind};

/// Sends the NAL units of payloads (RFC 9328).
///
/// A unit that fits goes alone (4.3.1), a longer one in fragments (4.3.3); where the limit leaves a
/// fragment no room for data it is dropped. A VPS, an SPS and a PPS wait, each the latest, and go
/// before the next other unit once there are an SPS and a PPS: in one aggregate (4.3.2), or where
/// that passes the limit each alone if it fits. Access unit delimiters, and units of the types of
/// aggregates and fragments, are not sent.
///
/// With `with_donl` each unit bears its decoding order number (4.4), which counts against the
/// limit: DONL in single packets, aggregates and first fragments. The limit of a call is the lesser
/// of its `mtu` and the largest packet size, 1200 unless `with_max_packet_size` sets another; an
/// `mtu` under 4 has no effect.
///
/// ```rust
/// let mut packetizer = H266Packetizer::new(alloc);
/// packetizer.with_max_packet_size(1400);
/// for packet in &packetizer.packetize(1400, frame)? {
///     send(packet);
/// }
/// ```
pub type H266Packetizer = PayloadPacketizer<H266>;

/// Whether F is set.
pub(crate) fn is_forbidden(unit: &[u8]) -> bool
    ensures { result ≡ spec.has_forbidden_bit unit.now }
{
    !unit.is_empty() && unit[0] >> 7 == 1
}

/// The layer of a unit.
pub(crate) fn layer(unit: &[u8]) -> u8
    ensures { result ≡ spec.layer_of unit.now }
{
    if unit.is_empty() { 0 } else { unit[0] & 0x3f }
}

/// The temporal id of a unit.
pub(crate) fn temporal(unit: &[u8]) -> u8
    ensures { result ≡ spec.temporal_of unit.now }
{
    if unit.len() < 2 { 0 } else { unit[1] & 7 }
}

/// The first byte of an aggregate: F where a set has it, Z clear, the lowest layer.
fn aggregate_high(sets: Sets<'_>) -> u8
    ensures { result ≡ (if list_any spec.has_forbidden_bit (sets_list sets.entry) then 0x80 else 0)
        + spec.least spec.layer_of (sets_list sets.entry) }
{
    let mut forbidden = is_forbidden(sets.sps) || is_forbidden(sets.pps);
    let mut lowest = layer(sets.sps).min(layer(sets.pps));
    if let Some(vps) = sets.vps {
        forbidden = is_forbidden(vps) || forbidden;
        lowest = layer(vps).min(lowest);
    }
    let forbidden_bit = if forbidden { 0x80 } else { 0 };
    forbidden_bit + lowest
}

/// The second byte of an aggregate: its type, and the lowest temporal id but at least 1.
fn aggregate_low(sets: Sets<'_>) -> u8
    ensures { result ≡ 28 * 8 + max 1 (spec.least spec.temporal_of (sets_list sets.entry)) }
{
    let mut lowest = temporal(sets.sps).min(temporal(sets.pps));
    if let Some(vps) = sets.vps {
        lowest = temporal(vps).min(lowest);
    }
    AGGREGATION_PACKET * 8 + lowest.max(1)
}

impl PayloadFormat for H266 {
    ghost use Rattle.h266_payload.specs.H266.{h266};
    ghost use Rattle.h266_payload.specs.CodecFacts.{has_header, header_tells, fits_limits, aggregate_numbers};
    ghost use Rattle.std.specs.Prelude.{refl, false};

    ghost format = { λ codec. h266 codec.has_donl };

    ghost fresh = { record { has_donl = false } };

    ghost has_dond = { λ codec. false };

    fn new() -> Self {
        H266 { has_donl: false }
    }

    fn header_len(self) -> usize {
        2
    }

    fn has_donl(self) -> bool {
        self.has_donl
    }

    fn least_mtu(self) -> usize {
        4
    }

    fn has_max_packet_size(self) -> bool {
        true
    }

    fn kind_of(self, unit: &[u8]) -> UnitKind {
        if unit.len() < 2 {
            return UnitKind::Skipped;
        }
        match header_of(unit).nalu_type() {
            AUD_NUT | AGGREGATION_PACKET | FRAGMENTATION_UNIT => UnitKind::Skipped,
            VPS_NUT => UnitKind::Vps,
            SPS_NUT => UnitKind::Sps,
            PPS_NUT => UnitKind::Pps,
            _ => UnitKind::Other,
        }
    }

    fn units_in(self, payload: &[u8]) -> UnitSlices<'_> {
        h26x_cut::units(payload, ZeroRule::AtMostThree)
    }

    fn sets_fit(self, limit: usize, sets: Sets<'_>) -> bool {
        let don = if self.has_donl { 2 } else { 0 };
        2 + don + sets.size() <= limit as u128
    }

    fn has_dond(self) -> bool {
        false
    }

    fn sets_header(self, sets: Sets<'_>, _unit: &[u8]) -> [u8; 2] {
        [aggregate_high(sets), aggregate_low(sets)]
    }

    fn fragment_header(self, unit: &[u8], start: bool, end: bool) -> [u8; 3] {
        let nalu_type = header_of(unit).nalu_type();
        let marks = H266FragmentationUnitHeader::new(start, end, false, nalu_type);
        [unit[0], with_type(unit[1], FRAGMENTATION_UNIT), marks.0]
    }

    fn is_key(self, unit: &[u8]) -> bool {
        unit.len() >= 2 && header_of(unit).is_irap()
    }

    fn extra(self, key: bool) -> CodecExtra {
        CodecExtra::H266(H266CodecExtra { is_keyframe: key })
    }

    fn has_key(self, extra: CodecExtra) -> bool {
        matches!(
            extra,
            CodecExtra::H266(H266CodecExtra { is_keyframe: true })
        )
    }

    ghost fits = { λ codec. fits_limits codec.has_donl };

    ghost dons = { λ codec. aggregate_numbers codec.has_donl };

    ghost headed = { λ codec unit is. has_header unit is };

    ghost keyed = { λ codec head rest two. header_tells head rest two };
}

impl DonlFormat for H266 {
    ghost use Rattle.std.specs.Prelude.{refl};

    ghost with_donl_of = { λ codec has_donl. record codec { has_donl = has_donl } };

    fn with_donl(self, has_donl: bool) -> Self {
        H266 { has_donl }
    }

    ghost same_kind = { λ codec has_donl unit. refl };
}
