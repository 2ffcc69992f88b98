//! Parameters of a format in SDP.

ghost use Rattle.std.specs.Prelude.{◌≡◌};
ghost use Rattle.h26x_profile.specs.Parameters.{parameter};

use std::collections::HashMap;

/// The byte that the parameter of this name has, if it is there and std reads its text as a `u8`.
pub(crate) fn byte_of(params: &HashMap<String, String>, name: &str) -> Option<u8>
    ensures { result ≡ parameter params.now name.now }
{
    params.get(name)?.parse().ok()
}
