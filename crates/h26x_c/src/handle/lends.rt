//! The loan of what a handle holds.

ghost use Rattle.std.specs.Prelude.{◌≡◌};
ghost use types.Logic.{sem};
ghost use Rattle.h26x_c.specs.Lent.{LendsEndpoint};

use super::Handle;
use h26x_endpoint::endpoint::Endpoint;

impl Handle {
    /// What it holds.
    pub fn get_mut(&mut self) -> &mut Endpoint
        ensures* writes_back { sem 𝓛 (LendsEndpoint self.entry result) }
        ensures value { result.now ≡ self.old.value }
    {
        unsafe { &mut *(self.ptr as *mut Endpoint) }
    }
}
