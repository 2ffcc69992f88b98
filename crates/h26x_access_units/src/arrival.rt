//! When packets came that wait.

ghost use Rattle.std.specs.Prelude.{◌≡◌, ◌<◌, ◌^◌, ◌++◌, Some, false};
ghost use Rattle.h26x_core.specs.Sequence.{distance_ahead, is_late, next_sequence_number};
ghost use Rattle.h26x_access_units.specs.Arrival.{not_passed, is_first_passed, IsEndOf, IsRoomMade, IsLetGo, from_at};

use std::collections::VecDeque;

/// Half of the circle of sequence numbers: so far ahead a number counts as behind (RFC 1982, 3.2).
const HALF: u16 = 0x8000;

/// When a packet came that waits.
#[derive(Debug, Clone, Copy, PartialEq, Eq)]
pub struct Arrival {
    /// The packet's sequence number.
    pub number: u16,
    /// The caller's tick at which it came.
    pub at: u32,
}

/// Whether a number is behind the one that is due.
pub(crate) fn is_passed(due: u16, number: u16) -> bool
    ensures { result ≡ is_late (Some due) number }
{
    number.wrapping_sub(due) >= HALF
}

/// Whether the packet went whose arrival stands first.
fn is_first_passed(arrivals: &VecDeque<Arrival>, due: u16) -> bool
    ensures { result ≡ is_first_passed (Some due) arrivals.now.items }
{
    match arrivals.front() {
        Some(arrival) => is_passed(due, arrival.number),
        None => false,
    }
}

/// Drops arrivals of packets that went, as long as such a one stands first.
fn drop_front(arrivals: &mut VecDeque<Arrival>, due: u16)
    ensures waits { not_passed (Some due) arrivals.new.items
        ≡ not_passed (Some due) arrivals.old.items }
    ensures first { is_first_passed (Some due) arrivals.new.items ≡ false }
    ensures end { IsEndOf arrivals.old.items arrivals.new.items }
{
    while is_first_passed(arrivals, due) {
        let _ = arrivals.pop_front();
    }
}

/// Drops arrivals of packets that went, wherever they stand.
fn drop_passed(arrivals: &mut VecDeque<Arrival>, due: u16)
    ensures { arrivals.new.items ≡ not_passed (Some due) arrivals.old.items }
{
    arrivals.retain(|arrival| !is_passed(due, arrival.number));
}

/// Where by the next packet half of the circle would have gone since the number `from` was due, drops
/// arrivals of packets that went; the answer is the number since which others may have gone.
fn make_room(arrivals: &mut VecDeque<Arrival>, from: u16, due: u16, number: u16) -> u16
    requires { distance_ahead due number < 2 ^ 15 }
    ensures { IsRoomMade from due number arrivals.old.items result arrivals.new.items }
{
    let gone = u32::from(due.wrapping_sub(from)) + u32::from(number.wrapping_sub(due));
    if gone >= u32::from(HALF) {
        drop_passed(arrivals, due);
        due
    } else {
        from
    }
}

/// The packet of this number goes, where it is the first of those that wait by its number. Its arrival
/// stays until it stands first, so that none is looked for. Arrivals of packets that went since the
/// number `from` was due may stand there, and afterwards since the one that is answered.
pub(crate) fn let_go(arrivals: &mut VecDeque<Arrival>, from: u16, due: u16, number: u16) -> u16
    requires { distance_ahead due number < 2 ^ 15 }
    ensures { IsLetGo from due number arrivals.old.items result arrivals.new.items }
{
    let since = make_room(arrivals, from, due, number);
    drop_front(arrivals, number.wrapping_add(1));
    since
}

/// The number since which others may have gone, once one more arrival stands behind these: where none
/// stands there, the one that is due then.
pub(crate) fn from_at(arrivals: &VecDeque<Arrival>, from: u16, due: Option<u16>) -> u16
    ensures { result ≡ from_at from due arrivals.now.items }
{
    if arrivals.is_empty() {
        due.unwrap_or(0)
    } else {
        from
    }
}
