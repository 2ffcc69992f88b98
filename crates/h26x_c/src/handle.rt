//! What C holds of an endpoint: the pointer of a box.

ghost use Rattle.std.specs.Prelude.{◌≡◌};
ghost use Rattle.h26x_endpoint.specs.declared.endpoint.Endpoint.{Endpoint};
ghost use Rattle.h26x_c.specs.Owned.{endpoint_owned, endpoint_coded};

mod lends;

use h26x_endpoint::endpoint::Endpoint;
use std::alloc::Global;
use std::marker::Model;

/// A handle, which owns the endpoint behind it.
#[repr(C)]
pub struct Handle {
    pub(super) ptr: *mut (),
    alloc: Global,
    pub ghost value: { Endpoint } by { endpoint_coded },
}

impl Model for Handle {
    ghost also_owns = { λ h. endpoint_owned h.alloc h.ptr h.value };
}

/// What may go to another thread.
trait GoesToAnotherThread: Send {}

// An endpoint may, and so may its handle.
impl GoesToAnotherThread for Endpoint {}

unsafe impl Send for Handle {}

impl Handle {
    /// The box whose pointer it is.
    pub fn into_box(self) -> Box<Endpoint>
        ensures { result.value ≡ self.value }
    {
        let Handle { ptr, alloc } = self;
        unsafe { Box::from_raw(alloc, ptr as *mut Endpoint) }
    }
}
