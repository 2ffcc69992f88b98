//! Packets with their sequence numbers for a receiver, many in one call.

ghost use Rattle.std.specs.Prelude.{◌≡◌, true, length, map};
ghost use Rattle.std.specs.List.{list_all};
ghost use Rattle.h26x_handles.specs.Payloads.{is_within, numbered_in};
ghost use Rattle.h26x_handles.specs.ReceiveAll.{IsReceivedInto, AreToldReceived};

use crate::payloads::{RtpPayload, payload_in, put_at};
use crate::sequenced::SequencedEndpoint;
use h26x_codes::code::{
    NO_ROOM, OK, OUT_OF_MEMORY, Refusal, code_and_numbers, number_of, numbers_of,
};
use h26x_core::CodecExtra;

/// What became of a packet: its code with the numbers of a refusal, which of the four it is with the
/// number that this speaks of, how many bytes it completed, and what these tell.
#[repr(C)]
#[derive(Clone, Copy)]
pub struct ReceivedTold {
    pub written: usize,
    pub why: Refusal,
    pub code: u32,
    pub received: u32,
    pub count: u16,
    pub extra: u8,
}

/// How far packets were taken: the code of the last call, how many are not to be given again, and how
/// many bytes were written.
#[derive(Clone, Copy)]
pub struct TakenTo {
    pub code: u32,
    pub taken: usize,
    pub written: usize,
}

impl SequencedEndpoint {
    /// Takes a packet, and tells in numbers what became of it.
    fn receive_told(&mut self, sequence: u16, packet: &[u8], to: &mut [u8]) -> ReceivedTold
        ensures { IsReceivedInto (sequence, packet.now) self.old to.old self.new to.new result }
    {
        let mut extra = CodecExtra::None;
        match self.receive_counted(sequence, packet, to, &mut extra) {
            Ok(completed) => {
                let (received, count) = numbers_of(completed.received);
                ReceivedTold {
                    written: completed.len,
                    why: Refusal {
                        first: 0,
                        second: 0,
                    },
                    code: OK,
                    received,
                    count,
                    extra: number_of(extra),
                }
            }
            Err(error) => {
                let (code, why) = code_and_numbers(error);
                ReceivedTold {
                    written: 0,
                    why,
                    code,
                    received: 0,
                    count: 0,
                    extra: 0,
                }
            }
        }
    }

    /// Takes packets, one after the other, up to the first for which memory lacks, or that completes
    /// what has no room behind what those before it wrote, which is kept. What became of each goes to
    /// the caller's memory, as far as there is room.
    pub fn receive_all(
        &mut self,
        bytes: &[u8],
        payloads: &[RtpPayload],
        to: &mut [u8],
        told: &mut [ReceivedTold],
    ) -> TakenTo
        requires { list_all (is_within (length bytes.now)) payloads.now ≡ true }
        ensures { AreToldReceived (map (numbered_in bytes.now) payloads.now)
            self.old to.old told.old self.new to.new told.new result }
    {
        let mut taken = 0;
        let mut written = 0;
        for it in payloads {
            let payload = payload_in(bytes, it);
            let room = to.len() - written;
            let one = self.receive_told(it.sequence, payload, &mut to[written..]);
            if one.code == OUT_OF_MEMORY {
                return TakenTo {
                    code: OUT_OF_MEMORY,
                    taken,
                    written,
                };
            }
            put_at(told, taken, one);
            taken += 1;
            if one.written > room {
                return TakenTo {
                    code: NO_ROOM,
                    taken,
                    written,
                };
            }
            written += one.written;
        }
        TakenTo {
            code: OK,
            taken,
            written,
        }
    }
}
