//! Copies that tell whether there was room.

ghost use Rattle.std.specs.Prelude.{◌≡◌, Ok};
ghost use Rattle.h26x_c.specs.Sdp.{copy_answer};

use h26x_codes::code::{NO_ROOM, OK};
use h26x_codes::copy::copy_where_room;

/// Copies bytes to the front of a buffer, where there is room for them, and tells how many they are.
pub fn copy_out(bytes: &[u8], to: &mut [u8], len: &mut usize) -> u32
    ensures { (result, (to.new, len.new)) ≡ copy_answer (Ok bytes.now) to.old len.old }
{
    let code = if bytes.len() <= to.len() { OK } else { NO_ROOM };
    *len = copy_where_room(bytes, to);
    code
}
