//! What sets one codec's packetizer apart.

ghost use Rattle.std.specs.Prelude.{◌≡◌, ◌≤◌, ◌+◌, ◌++◌, ℕ, Bool, true, List, length, take};
ghost use Rattle.h26x_model.specs.Payload.Format.{Format, donl};
ghost use Rattle.h26x_model.specs.Payload.Facts.{FitsLimits, DonlHasTwoBytes};
ghost use Rattle.h26x_core.specs.Kind.{is_other};
ghost use Rattle.h26x_payload.specs.Sets.{unit_kind, sets_list, sets_gap, sets_behind_lengths};

use crate::sets::Sets;
use h26x_core::CodecExtra;
use h26x_cut::UnitSlices;
use std::fmt;

/// What a unit is to a packetizer, by its type (RFC 6184, 1.3; RFC 7798, 1.1.4; RFC 9328, 1.1.4).
#[derive(Clone, Copy)]
pub enum UnitKind {
    /// Not sent, such as an access unit delimiter.
    Skipped,
    /// A video parameter set, which waits.
    Vps,
    /// A sequence parameter set, which waits.
    Sps,
    /// A picture parameter set, which waits.
    Pps,
    /// Every other unit: it is sent at once, behind the sets that are due.
    Other,
}

/// What sets one codec's packetizer apart (RFC 6184, RFC 7798, RFC 9328). A value is the setting of
/// a packetizer.
pub trait PayloadFormat: Copy + fmt::Debug {
    ghost format: { Self → Format };

    ghost fresh: { Self };

    ghost has_dond: { Self → Bool };

    /// The setting of a new packetizer.
    fn new() -> Self
        ensures { result ≡ fresh };

    /// The bytes of a unit's header.
    fn header_len(self) -> usize
        ensures is { result ≡ (format self).header_len }
        ensures short { result ≤ 2 };

    /// Whether packets bear decoding order numbers.
    fn has_donl(self) -> bool
        ensures { result ≡ (format self).has_donl };

    /// The `mtu` under which a call has no effect.
    fn least_mtu(self) -> usize
        ensures { result ≡ (format self).least_mtu };

    /// Whether a packetizer's largest packet size limits its calls too.
    fn has_max_packet_size(self) -> bool
        ensures { result ≡ (format self).has_max_packet_size };

    /// What a unit is.
    fn kind_of(self, unit: &[u8]) -> UnitKind
        ensures { unit_kind result ≡ (format self).kind unit.now };

    /// The units of a payload.
    fn units_in(self, payload: &[u8]) -> UnitSlices<'_>
        ensures { result ≡ (format self).units payload.now };

    /// Whether sets fit one packet.
    fn sets_fit(self, limit: usize, sets: Sets<'_>) -> bool
        ensures { result ≡ (format self).sets_fit limit (sets_list sets.entry) };

    /// Whether each unit of an aggregate but the first stands behind a DOND.
    fn has_dond(self) -> bool
        ensures { result ≡ has_dond self };

    /// The header of the packet of sets before a unit: the first bytes, as many as a unit's header
    /// has.
    fn sets_header(self, sets: Sets<'_>, unit: &[u8]) -> [u8; 2]
        requires whole { (format self).header_len ≤ length unit.now }
        ensures { (don : ℕ) → (format self).sets_packet don (sets_list sets.entry) unit.now
            ≡ take (format self).header_len result ++ (donl (format self) don
            ++ sets_behind_lengths (sets_gap (has_dond self)) (sets_list sets.entry)) };

    /// The header of a fragment of this unit: the first bytes, one more than a unit's header has.
    fn fragment_header(self, unit: &[u8], start: bool, end: bool) -> [u8; 3]
        requires whole { (format self).header_len ≤ length unit.now }
        ensures { take ((format self).header_len + 1) result
            ≡ (format self).fragment_header unit.now start end };

    /// Whether a unit is of a key type.
    fn is_key(self, unit: &[u8]) -> bool
        ensures { result ≡ (format self).is_key unit.now };

    /// What is told of units, with a key unit among them or not.
    fn extra(self, key: bool) -> CodecExtra
        ensures { result ≡ (format self).extra key };

    /// Whether a key unit was told of.
    fn has_key(self, extra: CodecExtra) -> bool
        ensures { result ≡ (format self).has_key extra };

    // Headers are as long as they are counted, and sets that fit are within the limit.
    ghost fits: { (codec : Self) → FitsLimits (format codec) };

    // Two bytes hold a number.
    ghost dons: { (codec : Self) → DonlHasTwoBytes (format codec) };

    // An other unit has a whole header.
    ghost headed: { (codec : Self) (unit : List ℕ) → is_other ((format codec).kind unit) ≡ true →
        (format codec).header_len ≤ length unit };

    // A header tells whether its unit is of a key type.
    ghost keyed: { (codec : Self) (head rest : List ℕ) → length head ≡ (format codec).header_len →
        (format codec).is_key (head ++ rest) ≡ (format codec).is_key head };
}

/// A codec whose packets can bear decoding order numbers (RFC 7798, 4.6; RFC 9328, 4.4), and whose
/// packetizers have a largest packet size.
pub trait DonlFormat: PayloadFormat {
    ghost with_donl_of: { Self → Bool → Self };

    /// The same setting, with or without numbers.
    fn with_donl(self, has_donl: bool) -> Self
        ensures { result ≡ with_donl_of self has_donl };

    // Numbers change nothing of what a unit is.
    ghost same_kind: { (codec : Self) (has_donl : Bool) (unit : List ℕ) →
        (Self.format codec).kind unit ≡ (Self.format (with_donl_of codec has_donl)).kind unit };
}
