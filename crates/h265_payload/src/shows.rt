//! Packets of H.265 as what their depacketizer shows.

ghost use Rattle.std.specs.Prelude.{false};
ghost use Rattle.h265_packets.specs.Payload.{empty_single};
ghost use Rattle.h265_packets.specs.declared.payload.H265Payload.TheVariants.{H265SingleNALUnitPacket};
ghost use Rattle.h265_payload.specs.Packet.{IsReady, IsShownBy};
ghost use Rattle.h265_payload.specs.Shown.{shown, shown_units};

use crate::codec::H265;
use crate::show::{prepare, show};
use crate::spare::Spare;
use h26x_core::PacketError;
use h26x_depacketizer::{PacketReader, Parts, Shows, check_lengths};
use h265_packets::H265Payload;
use std::alloc::Global;

impl Shows<H265> for H265Payload {
    type Spare = Spare;

    ghost fresh = { H265SingleNALUnitPacket empty_single };

    ghost shown = { λ codec packet. shown codec.has_donl packet };

    ghost units = { shown_units };

    ghost is_free = { false };

    ghost is_shown_by = { λ codec packet parts. IsShownBy codec.has_donl packet parts };

    ghost is_ready = { λ codec packet parts spare. IsReady codec.has_donl packet parts
        spare.data.items spare.others.items };

    fn new(alloc: Global) -> Self {
        H265Payload::empty(alloc)
    }

    fn new_spare(alloc: Global) -> Self::Spare {
        Spare::new(alloc)
    }

    fn clone(&self, alloc: Global) -> Result<Self, PacketError> {
        self.clone(alloc)
    }

    #[inline(always)]
    fn read<'a>(codec: H265, packet: &'a [u8]) -> Result<Parts<'a>, PacketError> {
        codec.read(packet)
    }

    #[inline(always)]
    fn prepare(
        codec: H265,
        is_avc: bool,
        packet: &[u8],
        parts: Parts<'_>,
        run_len: Option<usize>,
        spare: &mut Self::Spare,
    ) -> Result<(), PacketError> {
        check_lengths(codec, is_avc, packet, parts, run_len)?;
        prepare(codec.has_donl, packet, parts, spare)?;
        Ok(())
    }

    #[inline(always)]
    fn show(&mut self, codec: H265, packet: &[u8], parts: Parts<'_>, spare: &mut Self::Spare) {
        show(codec.has_donl, packet, parts, self, spare);
    }
}
