//! What C holds of an endpoint that a call only looks at.

ghost use Rattle.std.specs.Prelude.{◌≡◌, ℕ};
ghost use Rattle.h26x_endpoint.specs.declared.endpoint.Endpoint.{Endpoint};
ghost use Rattle.h26x_c.specs.Owned.{endpoint_lent, endpoint_coded};

use h26x_endpoint::endpoint::Endpoint;
use std::marker::Model;

/// A handle behind C's `const`. Its endpoint is lent, so that no call changes it meanwhile.
#[repr(C)]
pub struct ConstHandle {
    ptr: *mut (),
    ghost life: { ℕ },
    pub ghost value: { Endpoint } by { endpoint_coded },
}

impl Model for ConstHandle {
    ghost also_owns = { λ h. endpoint_lent h.life h.ptr h.value };
}

// Threads may look at an end at once, and so at its handle.
unsafe impl Send for ConstHandle {}

unsafe impl Sync for ConstHandle {}

impl ConstHandle {
    /// What it holds.
    pub fn get(&self) -> &Endpoint
        ensures { result.now ≡ self.now.value }
    {
        unsafe { &*(self.ptr as *const Endpoint) }
    }
}
