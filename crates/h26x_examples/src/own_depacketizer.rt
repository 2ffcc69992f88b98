//! The example of a caller's own depacketizer that a receiver of packets with their sequence numbers
//! is made over.

ghost use Rattle.std.specs.Prelude.{◌+◌, min, refl};
ghost use Rattle.h26x_model.specs.Receive.DepacketizerState.{depacketizer_meaning};
ghost use Rattle.h26x_depacketizer.specs.DepacketizerView.{depacketizer_state};
ghost use Rattle.h264_payload.specs.H264.{h264};

use h26x_core::{CodecExtra, Depacketizer, PacketError};
use h26x_depacketizer::{OpenRun, OpenText, RunDepacketizer, RunRule, UnitSink, UnitTest};
use h26x_receiver::SequencedDepacketizer;
use h264_payload::H264Depacketizer;
use std::alloc::Global;

/// A depacketizer of H.264 that counts the packets that it took.
#[derive(Debug, Drop)]
pub struct CountingDepacketizer {
    pub depacketizer: H264Depacketizer,
    pub taken: usize,
}

impl Depacketizer for CountingDepacketizer {
    ghost meaning = { λ it. depacketizer_meaning (depacketizer_state h264 it.depacketizer) };

    fn out_size_hint(&self, packets_size: usize) -> Option<usize> {
        self.depacketizer.out_size_hint(packets_size)
    }

    fn depacketize(
        &mut self,
        packet: &[u8],
        out: &mut Vec<u8>,
        codec_extra: &mut CodecExtra,
    ) -> Result<(), PacketError> {
        self.take(packet, out, codec_extra)
    }

    fn is_partition_head(&self, packet: &[u8]) -> bool {
        self.depacketizer.is_partition_head(packet)
    }

    fn is_partition_tail(&self, marker: bool, packet: &[u8]) -> bool {
        self.depacketizer.is_partition_tail(marker, packet)
    }
}

impl RunDepacketizer for CountingDepacketizer {
    ghost state = { λ it. depacketizer_state h264 it.depacketizer };

    ghost with_run = { λ run it. record it { depacketizer = record it.depacketizer { run = run } } };

    ghost having_taken = { λ packet it. record it { taken = min (it.taken + 1) 18446744073709551615 } };

    ghost other_run = { λ run it. refl };

    ghost own_run = { λ run it. refl };

    ghost last_run = { λ run other it. refl };

    ghost taken_beside = { λ packet run it. refl };

    fn meets_the_facts(&self) {
        self.depacketizer.meets_the_facts();
    }

    fn is_avc(&self) -> bool {
        self.depacketizer.is_avc
    }

    fn run_len(&self) -> usize {
        self.depacketizer.run_len()
    }

    fn swap_run(&mut self, run: &mut OpenRun) {
        self.depacketizer.swap_run(run);
    }

    fn give_up_run(&mut self) {
        self.depacketizer.give_up_run();
    }

    fn take<W: UnitSink>(
        &mut self,
        packet: &[u8],
        out: &mut W,
        codec_extra: &mut CodecExtra,
    ) -> Result<(), PacketError> {
        self.depacketizer
            .depacketize_into(packet, out, codec_extra)?;
        self.taken = self.taken.saturating_add(1);
        Ok(())
    }

    fn take_in_text(
        &mut self,
        rule: RunRule,
        packet: &[u8],
        text: &mut OpenText,
        codec_extra: &mut CodecExtra,
    ) -> Result<(), PacketError> {
        self.depacketizer
            .depacketize_in_text(rule, packet, text, codec_extra)?;
        self.taken = self.taken.saturating_add(1);
        Ok(())
    }

    fn starts_run(&self, packet: &[u8]) -> bool {
        self.depacketizer.starts_run(packet)
    }

    fn extra(&self, key: bool) -> CodecExtra {
        self.depacketizer.extra(key)
    }

    fn bears_unit<T: UnitTest>(&self, packet: &[u8], test: &T) -> bool {
        self.depacketizer.bears_unit(packet, test)
    }

    fn first_unit_begun(&self, packet: &[u8]) -> Option<[u8; 3]> {
        self.depacketizer.first_unit_begun(packet)
    }
}

/// Receives packets with their sequence numbers, and counts those that were taken.
pub fn count_packets(
    alloc: Global,
    packets: &[(u16, Vec<u8>)],
    out: &mut Vec<u8>,
) -> Result<usize, PacketError> {
    let depacketizer = CountingDepacketizer {
        depacketizer: H264Depacketizer::new(alloc),
        taken: 0,
    };
    let mut receiver = SequencedDepacketizer::new(alloc, depacketizer, 4_000_000);
    let mut extra = CodecExtra::None;
    for (sequence, packet) in packets {
        receiver.receive(*sequence, packet, out, &mut extra)?;
    }
    Ok(receiver.depacketizer.taken)
}

mod tests {
    use super::*;
    use std::test::Fail;

    /// A unit, once more, and another one.
    fn units(alloc: Global) -> Result<Vec<(u16, Vec<u8>)>, PacketError> {
        let mut packets = Vec::new(alloc);
        for (sequence, byte) in [(65535, 1), (65535, 1), (0, 2)] {
            packets.push((sequence, [0x61, byte].to_vec(alloc)?))?;
        }
        Ok(packets)
    }

    #[test]
    fn packets_taken_are_counted(rt: HostRuntime) -> Result<(), Fail> {
        let packets = units(rt.alloc())?;
        let mut out = Vec::new(rt.alloc());
        let taken = count_packets(rt.alloc(), &packets, &mut out)?;
        let want = [0, 0, 0, 1, 0x61, 1, 0, 0, 0, 1, 0x61, 2];
        assert!(rt; (taken, out.as_slice()) == (2, want.as_slice()));
        Ok(())
    }
}
