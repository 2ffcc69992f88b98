//! What is known of a packet by its number and by what was answered for it.

ghost use Rattle.std.specs.Prelude.{◌≡◌, false, if◌then◌else◌};
ghost use Rattle.h26x_receiver.specs.Sequenced.{is_taken};
ghost use Rattle.h26x_assembler.specs.AccessUnit.{is_closed_at, is_following, is_run_too_long};

use h26x_core::{PacketError, is_next};
use h26x_receiver::Received;
use h26x_reorder::RtpPacket;

/// Whether the marker of the last packet ended an access unit of this timestamp.
#[inline]
fn is_closed_at(closed: Option<u32>, timestamp: u32) -> bool
    ensures { result ≡ is_closed_at closed timestamp }
{
    match closed {
        Some(closed) => closed == timestamp,
        None => false,
    }
}

/// Whether it is known that nothing of its access unit is missing before a packet.
#[inline]
pub(crate) fn is_following(
    is_gap: bool,
    closed: Option<u32>,
    expected: Option<u16>,
    packet: &RtpPacket<'_>,
) -> bool
    ensures { result ≡ is_following is_gap closed expected packet.now.1.timestamp packet.now.0 }
{
    !is_gap && !is_closed_at(closed, packet.timestamp) && is_next(expected, packet.sequence)
}

/// Whether a packet was taken.
#[inline]
pub(crate) fn was_taken(received: &Result<Received, PacketError>) -> bool
    ensures { result ≡ is_taken received.now }
{
    match received {
        Ok(received) => received.is_taken(),
        Err(_) => false,
    }
}

/// Whether a packet that was taken follows the one before it, no unit lacks its end or its start by
/// it, and it left no run that was too long.
#[inline]
pub(crate) fn is_sound(
    follows: bool,
    is_broken: bool,
    received: &Result<Received, PacketError>,
) -> bool
    ensures { result ≡ (if is_run_too_long received.now then false
        else (if is_broken then false else follows)) }
{
    match received {
        Ok(Received::TooLong(_)) => false,
        _ => !is_broken && follows,
    }
}
