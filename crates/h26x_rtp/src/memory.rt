//! Bytes written to memory of the caller.

ghost use Rattle.std.specs.Prelude.{◌≡◌, ◌≤◌, ◌+◌, ◌++◌, length};
ghost use Rattle.h26x_rtp.specs.Memory.{overwritten};
ghost use Rattle.h26x_rtp.specs.Writing.{IsBytesWritten};

use crate::error::RtpWriteError;

/// Copies bytes to a place of memory; the place behind them.
#[inline(always)]
pub fn put(bytes: &[u8], place: usize, to: &mut [u8]) -> usize
    requires room { place + length bytes.now ≤ length to.old }
    ensures written { to.new ≡ overwritten place bytes.now to.old }
    ensures end { result ≡ place + length bytes.now }
{
    let end = place + bytes.len();
    to[place..end].copy_from_slice(bytes);
    end
}

/// Copies bytes and a payload behind them to the front of memory where there is room for both.
fn put_both(head: &[u8], payload: &[u8], to: &mut [u8])
    requires { length (head.now ++ payload.now) ≤ length to.old }
    ensures { to.new ≡ overwritten 0 (head.now ++ payload.now) to.old }
{
    let behind = put(head, 0, to);
    put(payload, behind, to);
}

/// Writes bytes and a payload behind them to the front of memory; how many these are.
pub fn write_behind(head: &[u8], payload: &[u8], to: &mut [u8]) -> Result<usize, RtpWriteError>
    ensures { IsBytesWritten (head.now ++ payload.now) to.old to.new result }
{
    let size = head.len().saturating_add(payload.len());
    if to.len() < size {
        return Err(RtpWriteError::NoRoom(size));
    }
    put_both(head, payload, to);
    Ok(size)
}
