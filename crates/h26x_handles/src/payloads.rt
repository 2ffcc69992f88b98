//! Payloads that lie in one buffer.

ghost use Rattle.std.specs.Prelude.{◌≡◌, true, length, slice_set};
ghost use Rattle.std.specs.List.{list_all};
ghost use Rattle.h26x_handles.specs.Payloads.{is_within, payload_in, packet_in};

use h26x_reorder::RtpPacket;

/// The payload of an RTP packet in a buffer with others, and what its header says.
#[repr(C)]
#[derive(Clone, Copy)]
pub struct RtpPayload {
    pub begin: usize,
    pub end: usize,
    pub timestamp: u32,
    pub sequence: u16,
    pub marker: bool,
}

/// Whether payloads lie in a buffer of so many bytes, each of them.
pub fn are_within(payloads: &[RtpPayload], len: usize) -> bool
    ensures { result ≡ list_all (is_within len) payloads.now }
{
    payloads
        .iter()
        .all(|it| it.begin <= it.end && it.end <= len)
}

/// The bytes of a payload.
pub fn payload_in<'a>(bytes: &'a [u8], it: &RtpPayload) -> &'a [u8]
    requires { is_within (length bytes.now) it.now ≡ true }
    ensures { result.now ≡ payload_in bytes.now it.now }
{
    &bytes[it.begin..it.end]
}

/// The packet that bears it.
pub fn packet_in<'a>(bytes: &'a [u8], it: &RtpPayload) -> RtpPacket<'a>
    requires { is_within (length bytes.now) it.now ≡ true }
    ensures { result ≡ packet_in bytes.now it.now }
{
    RtpPacket {
        sequence: it.sequence,
        timestamp: it.timestamp,
        marker: it.marker,
        payload: payload_in(bytes, it),
    }
}

/// Puts an entry at a place, where there is one.
pub fn put_at<T: Copy>(to: &mut [T], place: usize, it: T)
    ensures { to.new ≡ slice_set to.old place it }
{
    if place < to.len() {
        to[place] = it;
    }
}
