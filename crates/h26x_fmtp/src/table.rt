//! Tables of parameters.

ghost use Rattle.std.specs.Prelude.{◌≡◌, ◌<◌, IfSome, length, map};
ghost use Rattle.h26x_fmtp.specs.Tables as spec;
ghost use Rattle.h26x_fmtp.specs.TableViews.{row_view};

use crate::kind::Kind;
use crate::names::same_name;

/// A parameter of a format: its name, in lower case, what its value is, and what is taken for it where
/// it's absent.
#[derive(Debug, Clone, Copy)]
pub struct ParameterRow {
    /// The name.
    pub name: &'static [u8],
    /// What the value is.
    pub kind: Kind,
    /// The value where the parameter is absent, if the RFC gives one.
    pub default: Option<&'static [u8]>,
}

/// The place of the first row with a name, without regard to case, and its kind; `None` where no row
/// has it. It takes no memory.
pub fn row_of(rows: &[ParameterRow], name: &[u8]) -> Option<(usize, Kind)>
    ensures row { result ≡ spec.row_of (map row_view rows.now) name.now }
    ensures within { IfSome result (λ found. found.0 < length rows.now) }
{
    for (place, row) in rows.iter().enumerate() {
        if same_name(row.name, name) {
            return Some((place, row.kind));
        }
    }
    None
}
