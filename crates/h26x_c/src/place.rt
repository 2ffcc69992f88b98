//! Where a call writes a handle.

ghost use Rattle.std.specs.Prelude.{◌≡◌, ◌≢◌, ◌⊎◌, Option, Some};
ghost use Rattle.h26x_endpoint.specs.declared.endpoint.Endpoint.{Endpoint};
ghost use Rattle.h26x_codes.specs.Codes.{ok, out_of_memory};
ghost use Rattle.h26x_c.specs.Owned.{place_owned, place_coded};

use h26x_codes::code::{OK, OUT_OF_MEMORY};
use h26x_endpoint::endpoint::Endpoint;
use std::alloc::Global;
use std::marker::Model;

/// A handle that is yet to be written, or was.
#[repr(C)]
#[derive(Drop)]
pub struct Place {
    ptr: *mut (),
    alloc: Global,
    pub ghost value: { Option Endpoint } by { place_coded },
}

impl Model for Place {
    ghost also_owns = { λ p. place_owned p.alloc p.ptr p.value };
}

impl Place {
    /// The handle of a box, which is not freed here.
    pub fn of(boxed: Box<Endpoint>) -> Place
        ensures { result.value ≡ Some boxed.value }
    {
        let (ptr, alloc) = Box::into_raw_with_allocator(boxed);
        Place {
            ptr: ptr as *mut (),
            alloc,
        }
    }
}

/// Puts an endpoint behind a new handle.
pub fn put(alloc: Global, end: Endpoint, made: &mut Place) -> u32
    ensures answer { (result ≡ ok) ⊎ (result ≡ out_of_memory) }
    ensures made { result ≡ ok → made.new.value ≡ Some end }
    ensures kept { result ≢ ok → made.new ≡ made.old }
{
    let Ok(boxed) = Box::new(alloc, end) else {
        return OUT_OF_MEMORY;
    };
    *made = Place::of(boxed);
    OK
}
