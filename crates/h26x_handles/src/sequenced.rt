//! A receiver of packets with their sequence numbers, and what the last packet that it took completed
//! and had no room for.

ghost use Rattle.std.specs.Prelude.{◌≡◌, ◌≤◌, [], true, false, None, Err, IfOk, OnErr};
ghost use Rattle.h26x_codec.specs.AnyDepacketizer.{any_depacketizer_state, any_depacketizer_with_avc, any_depacketizer_with_donl, any_depacketizer_with_run};
ghost use Rattle.h26x_receiver.specs.Sequenced.{IsSequencedAnswer, is_taken, skip_answer};
ghost use Rattle.h26x_codes.specs.Copies.{AreHandedOver};
ghost use Rattle.h26x_handles.specs.States.{receiver_at_work, after_receiver_packet, receiver_run_len, receiver_after_skip, fresh_receiver, IsShowing};
ghost use Rattle.h26x_handles.specs.Completed.{received_of, len_of};

use h26x_codec::{AnyDepacketizer, Codec};
use h26x_codes::copy::put_or_keep;
use h26x_core::{CodecExtra, PacketError};
use h26x_depacketizer::{MemorySink, RunDepacketizer};
use h26x_receiver::{Received, SequencedDepacketizer};
use std::alloc::Global;
use std::marker::Model;

/// What became of a packet that wasn't refused, and how many bytes it completed.
#[derive(Clone, Copy)]
pub struct Completed {
    pub received: Received,
    pub len: usize,
}

/// A receiver of a codec's packets with their sequence numbers, and what the last packet that was
/// taken completed and had no room for.
#[derive(Drop)]
pub struct SequencedEndpoint {
    receiver: SequencedDepacketizer<AnyDepacketizer>,
    written: Vec<u8>,
    // Where a packet writes that has no room: what was kept before stays until one is taken.
    spare: Vec<u8>,
}

impl Model for SequencedEndpoint {
    ghost use Rattle.h26x_handles.specs.Endpoint.{SequencedEndpoint};

    ghost Value = { SequencedEndpoint };

    ghost view = { λ it. record {
      depacketizer = it.receiver.depacketizer;
      expected = it.receiver.expected;
      run_limit = it.receiver.run_limit;
      written = it.written.items;
    } };
}

impl SequencedEndpoint {
    /// A receiver that takes any sequence number as the first, and has completed nothing.
    pub fn new(alloc: Global, codec: Codec, has_donl: bool, is_avc: bool, run_limit: usize) -> Self
        ensures { result ≡ fresh_receiver codec has_donl is_avc run_limit }
    {
        let mut depacketizer = AnyDepacketizer::new(alloc, codec);
        depacketizer.with_donl(has_donl);
        depacketizer.set_avc(is_avc);
        SequencedEndpoint {
            receiver: SequencedDepacketizer::new(alloc, depacketizer, run_limit),
            written: Vec::new(alloc),
            spare: Vec::new(alloc),
        }
    }

    /// The same receiver again, which expects the same number; not what it completed.
    pub fn clone(&self, alloc: Global) -> Result<Self, PacketError>
        ensures same { IfOk result (λ it. it ≡ record self.now { written = [] }) }
        ensures memory { OnErr result (result ≡ Err PacketError.OutOfMemory) }
    {
        let depacketizer = self.receiver.depacketizer.clone()?;
        let run_limit = self.receiver.run_limit;
        let mut receiver = SequencedDepacketizer::new(alloc, depacketizer, run_limit);
        receiver.expected = self.receiver.expected;
        Ok(SequencedEndpoint {
            receiver,
            written: Vec::new(alloc),
            spare: Vec::new(alloc),
        })
    }

    /// Takes a packet with its sequence number. What it completes goes to the caller's memory where
    /// there is room for it, and is kept where there is none; `written` then tells its bytes. A packet
    /// that is late, comes twice or is refused leaves everything.
    pub fn receive(
        &mut self,
        sequence: u16,
        packet: &[u8],
        to: &mut [u8],
        written: &mut usize,
        extra: &mut CodecExtra,
    ) -> Result<Received, PacketError>
        ensures answer { IsSequencedAnswer self.old.run_limit (receiver_at_work self.old extra.old)
            sequence packet.now result }

        // What stands after a packet that was taken.
        ensures run { is_taken result ≡ true → any_depacketizer_state self.new.depacketizer
            ≡ (after_receiver_packet self.old extra.old sequence packet.now).at_work.state }
        ensures next { is_taken result ≡ true → self.new.expected
            ≡ (after_receiver_packet self.old extra.old sequence packet.now).expected }
        ensures told { is_taken result ≡ true → extra.new
            ≡ (after_receiver_packet self.old extra.old sequence packet.now).at_work.extra }
        ensures rest { is_taken result ≡ true →
            IsShowing packet.now self.old.depacketizer self.new.depacketizer }
        ensures given { is_taken result ≡ true → AreHandedOver
            (after_receiver_packet self.old extra.old sequence packet.now).at_work.out
            to.old to.new written.new self.new.written }
        ensures limit { self.new.run_limit ≡ self.old.run_limit }
        ensures bounded { receiver_run_len self.old ≤ self.old.run_limit →
            receiver_run_len self.new ≤ self.old.run_limit }

        ensures kept { is_taken result ≡ false → self.new ≡ self.old }
        ensures kept_to { is_taken result ≡ false → to.new ≡ to.old }
        ensures kept_written { is_taken result ≡ false → written.new ≡ written.old }
        ensures kept_extra { is_taken result ≡ false → extra.new ≡ extra.old }
    {
        let completed = self.receive_counted(sequence, packet, to, extra)?;
        if completed.received.is_taken() {
            *written = completed.len;
        }
        Ok(completed.received)
    }

    /// The same, where the answer tells how many bytes are completed: none by a packet that isn't
    /// taken.
    pub fn receive_counted(
        &mut self,
        sequence: u16,
        packet: &[u8],
        to: &mut [u8],
        extra: &mut CodecExtra,
    ) -> Result<Completed, PacketError>
        ensures answer { IsSequencedAnswer self.old.run_limit (receiver_at_work self.old extra.old)
            sequence packet.now (received_of result) }

        // What stands after a packet that was taken.
        ensures run { is_taken (received_of result) ≡ true →
            any_depacketizer_state self.new.depacketizer
            ≡ (after_receiver_packet self.old extra.old sequence packet.now).at_work.state }
        ensures next { is_taken (received_of result) ≡ true → self.new.expected
            ≡ (after_receiver_packet self.old extra.old sequence packet.now).expected }
        ensures told { is_taken (received_of result) ≡ true → extra.new
            ≡ (after_receiver_packet self.old extra.old sequence packet.now).at_work.extra }
        ensures rest { is_taken (received_of result) ≡ true →
            IsShowing packet.now self.old.depacketizer self.new.depacketizer }
        ensures given { is_taken (received_of result) ≡ true → AreHandedOver
            (after_receiver_packet self.old extra.old sequence packet.now).at_work.out
            to.old to.new (len_of result) self.new.written }
        ensures limit { self.new.run_limit ≡ self.old.run_limit }
        ensures bounded { receiver_run_len self.old ≤ self.old.run_limit →
            receiver_run_len self.new ≤ self.old.run_limit }

        ensures kept { is_taken (received_of result) ≡ false → self.new ≡ self.old }
        ensures kept_to { is_taken (received_of result) ≡ false → to.new ≡ to.old }
        ensures none { is_taken (received_of result) ≡ false → len_of result ≡ 0 }
        ensures kept_extra { is_taken (received_of result) ≡ false → extra.new ≡ extra.old }
    {
        let mut memory = MemorySink::new(to);
        match self.receiver.receive(sequence, packet, &mut memory, extra) {
            Ok(received) => {
                let len = memory.len();
                if received.is_taken() {
                    self.written.clear();
                }
                return Ok(Completed { received, len });
            }
            Err(PacketError::OutOfMemory) if memory.lacks_room() => {}
            Err(error) => return Err(error),
        }
        self.spare.clear();
        let received = self
            .receiver
            .receive(sequence, packet, &mut self.spare, extra)?;
        // It is taken: one that is late is answered at once, and memory lacks for none.
        let len = put_or_keep(&mut self.spare, to, &mut self.written);
        Ok(Completed { received, len })
    }

    /// Passes over a number that came and bears nothing of the stream: it isn't missing.
    pub fn skip(&mut self, sequence: u16) -> Received
        ensures answer { result ≡ skip_answer self.old.expected sequence }
        ensures after { self.new ≡ receiver_after_skip self.old sequence }
    {
        self.receiver.skip(sequence)
    }

    /// Gives up the open run, and takes any sequence number as the next.
    pub fn restart(&mut self)
        ensures { self.new ≡ record self.old {
          depacketizer = any_depacketizer_with_run None self.old.depacketizer;
          expected = None;
        } }
    {
        self.receiver.restart();
    }

    /// Sets whether packets bear decoding order numbers; that of H.264 stays as it is.
    pub fn with_donl(&mut self, has_donl: bool)
        ensures { self.new ≡ record self.old {
          depacketizer = any_depacketizer_with_donl has_donl self.old.depacketizer;
        } }
    {
        self.receiver.depacketizer.with_donl(has_donl);
    }

    /// Sets whether units are written behind lengths or behind start codes.
    pub fn set_avc(&mut self, is_avc: bool)
        ensures { self.new ≡ record self.old {
          depacketizer = any_depacketizer_with_avc is_avc self.old.depacketizer;
        } }
    {
        self.receiver.depacketizer.set_avc(is_avc);
    }

    /// How many bytes the open run holds; none where none is open.
    pub fn run_len(&self) -> usize
        ensures { result ≡ receiver_run_len self.now }
    {
        self.receiver.depacketizer.run_len()
    }

    /// Its depacketizer.
    pub fn depacketizer(&self) -> &AnyDepacketizer
        ensures { result.now ≡ self.now.depacketizer }
    {
        &self.receiver.depacketizer
    }

    /// What the last packet that was taken completed and had no room for.
    pub fn written(&self) -> &[u8]
        ensures { result.now ≡ self.now.written }
    {
        self.written.as_slice()
    }
}
