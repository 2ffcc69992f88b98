//! Values that numbers in SDP name.

ghost use Rattle.std.specs.Prelude.{◌≡◌, ℕ, Option};

/// A profile, a tier or a level: one of a few values that numbers name (RFC 7798, section 7.1; RFC
/// 9328, section 7.2).
pub trait Numbered: Copy {
    // The value that a number names.
    ghost named: { ℕ → Option Self };

    // The number of a value.
    ghost number_of: { Self → ℕ };

    /// The value with this number, if one has it.
    fn from_number(number: u8) -> Option<Self>
        ensures { result ≡ named number };

    /// The value's number.
    fn to_number(self) -> u8
        ensures { result ≡ number_of self };
}
