//! What sets one codec's packets of every unit apart.

ghost use Rattle.std.specs.Prelude.{◌≡◌, ◌≤◌, ◌++◌, ℕ, Bool, List, length, take};
ghost use Rattle.h26x_model.specs.Payload.Format.{Format, donl};
ghost use Rattle.h26x_model.specs.Payload.Facts.{FitsLimits, DonlHasTwoBytes};
ghost use Rattle.h26x_model.specs.Send.Every.{FitsBySum, has_own_header, with_own_aggregates};
ghost use Rattle.h26x_payload.specs.Sets.{sets_gap, sets_behind_lengths};
ghost use Rattle.h26x_packetizer.specs.Group.{lent_units, HaveHeaders};

use h26x_payload::PayloadFormat;

/// What sets one codec's packets of every unit apart (RFC 6184, 5.7.1; RFC 7798, 4.4.2; RFC 9328,
/// 4.3.2).
pub trait EveryFormat: PayloadFormat {
    // An aggregate of units, with this number.
    ghost aggregate: { Self → ℕ → List (List ℕ) → List ℕ };

    // How many bytes are counted before the units of an aggregate, and before each of them.
    ghost start: { Self → ℕ };

    ghost each: { Self → ℕ };

    // Whether a unit is a slice.
    ghost is_slice: { Self → List ℕ → Bool };

    /// How many bytes of an aggregate are counted before its units.
    fn units_start(self) -> usize
        ensures is { result ≡ start self }
        ensures short { result ≤ 4 };

    /// How many bytes of an aggregate are counted before each of its units: its length, and a DOND.
    fn unit_start(self) -> usize
        ensures is { result ≡ each self }
        ensures short { result ≤ 3 };

    /// Whether a unit is a slice.
    fn is_slice(self, unit: &[u8]) -> bool
        ensures { result ≡ is_slice self unit.now };

    /// The header of an aggregate of units: the first bytes, as many as a unit's header has.
    fn own_header(self, units: &[&[u8]]) -> [u8; 2]
        requires some { 1 ≤ length units.now }
        requires whole { HaveHeaders (Self.format self) (lent_units units.now) }
        ensures { (don : ℕ) → aggregate self don (lent_units units.now)
            ≡ take (Self.format self).header_len result ++ (donl (Self.format self) don
            ++ sets_behind_lengths (sets_gap (Self.has_dond self)) (lent_units units.now)) };

    /// Whether a unit has a header of its own, not that of a packet.
    fn has_own_header(self, unit: &[u8]) -> bool
        ensures { result ≡ has_own_header (Self.format self) unit.now };

    // Headers are as long as they are counted, and units that fit are within the limit.
    ghost fits_every: { (codec : Self) → FitsLimits (with_own_aggregates (Self.format codec)
        (aggregate codec)) };

    // Two bytes hold a number.
    ghost dons_every: { (codec : Self) → DonlHasTwoBytes (with_own_aggregates (Self.format codec)
        (aggregate codec)) };

    // Whether units fit an aggregate is a matter of the sum of their lengths.
    ghost by_sum: { (codec : Self) → FitsBySum (Self.format codec) (start codec) (each codec) };

    // Each unit of an aggregate has its length before it.
    ghost some_each: { (codec : Self) → 2 ≤ each codec };
}
