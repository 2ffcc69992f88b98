//! A depacketizer, and what its last accepted packet completed and had no room for.

ghost use Rattle.std.specs.Prelude.{◌≡◌, [], ◌∷◌, Err, IfOk, OnOk, OnErr};
ghost use Rattle.h26x_model.specs.Receive.DepacketizerState.{DepacketizerState, after_packets, IsPacketOutcome};
ghost use Rattle.h26x_depacketizer.specs.UnitSink.{grown_to};
ghost use Rattle.h26x_codec.specs.AnyDepacketizer.{fresh_any_depacketizer};
ghost use Rattle.h26x_codes.specs.Copies.{AreHandedOver};
ghost use Rattle.h26x_handles.specs.States.{told_depacketizer_state, told_depacketization, after_told_packet, IsShowing};

use h26x_codec::{AnyDepacketizer, Codec};
use h26x_codes::copy::put_or_keep;
use h26x_core::{CodecExtra, PacketError};
use h26x_depacketizer::{MemorySink, UnitSink};
use std::alloc::Global;
use std::marker::Model;

/// A depacketizer of a codec, and what its last accepted packet completed and had no room for.
#[derive(Drop)]
pub struct ReceivingEndpoint {
    /// The depacketizer.
    pub depacketizer: AnyDepacketizer,
    written: Vec<u8>,
    // Where a packet writes that has no room: what was kept before stays until one is accepted.
    spare: Vec<u8>,
}

impl Model for ReceivingEndpoint {
    ghost use Rattle.h26x_handles.specs.Endpoint.{ReceivingEndpoint};

    ghost Value = { ReceivingEndpoint };

    ghost view = { λ it. record { depacketizer = it.depacketizer; written = it.written.items } };
}

impl ReceivingEndpoint {
    /// A depacketizer that has no run open and has completed nothing.
    pub fn new(alloc: Global, codec: Codec, has_donl: bool) -> Self
        ensures fresh { result.depacketizer ≡ fresh_any_depacketizer codec has_donl }
        ensures none { result.written ≡ [] }
    {
        let mut depacketizer = AnyDepacketizer::new(alloc, codec);
        depacketizer.with_donl(has_donl);
        ReceivingEndpoint {
            depacketizer,
            written: Vec::new(alloc),
            spare: Vec::new(alloc),
        }
    }

    /// The same depacketizer again; not what it completed.
    pub fn clone(&self, alloc: Global) -> Result<Self, PacketError>
        ensures same { IfOk result (λ it. it.depacketizer ≡ self.now.depacketizer) }
        ensures none { IfOk result (λ it. it.written ≡ []) }
        ensures memory { OnErr result (result ≡ Err PacketError.OutOfMemory) }
    {
        Ok(ReceivingEndpoint {
            depacketizer: self.depacketizer.clone()?,
            written: Vec::new(alloc),
            spare: Vec::new(alloc),
        })
    }

    /// Takes a packet. What it completes goes to the caller's memory where there is room for it, and
    /// is kept where there is none; `written` then tells its bytes.
    pub fn depacketize(
        &mut self,
        is_avc: bool,
        packet: &[u8],
        to: &mut [u8],
        written: &mut usize,
        extra: &mut CodecExtra,
    ) -> Result<(), PacketError>
        ensures outcome { IsPacketOutcome
            (told_depacketization is_avc self.old.depacketizer [] extra.old) packet.now result }

        // What stands after a packet that was accepted.
        ensures run { OnOk result (told_depacketizer_state is_avc self.new.depacketizer
            ≡ (after_told_packet is_avc self.old.depacketizer extra.old packet.now).state) }
        ensures told { OnOk result (extra.new
            ≡ (after_told_packet is_avc self.old.depacketizer extra.old packet.now).extra) }
        ensures rest { OnOk result (IsShowing packet.now
            self.old.depacketizer self.new.depacketizer) }
        ensures given { OnOk result (AreHandedOver
            (after_told_packet is_avc self.old.depacketizer extra.old packet.now).out
            to.old to.new written.new self.new.written) }

        ensures kept { OnErr result (self.new ≡ self.old) }
        ensures kept_to { OnErr result (to.new ≡ to.old) }
        ensures kept_written { OnErr result (written.new ≡ written.old) }
        ensures kept_extra { OnErr result (extra.new ≡ extra.old) }
    {
        let mut memory = MemorySink::new(to);
        match take(&mut self.depacketizer, is_avc, packet, &mut memory, extra) {
            Ok(()) => {
                *written = memory.len();
                self.written.clear();
                return Ok(());
            }
            Err(PacketError::OutOfMemory) if memory.lacks_room() => {}
            Err(error) => return Err(error),
        }
        self.spare.clear();
        take(
            &mut self.depacketizer,
            is_avc,
            packet,
            &mut self.spare,
            extra,
        )?;
        *written = put_or_keep(&mut self.spare, to, &mut self.written);
        Ok(())
    }

    /// What the last accepted packet completed and had no room for.
    pub fn written(&self) -> &[u8]
        ensures { result.now ≡ self.now.written }
    {
        self.written.as_slice()
    }
}

/// Takes a packet, and writes units behind lengths or behind start codes. The setting of the
/// depacketizer itself counts for nothing, and stays.
#[inline(always)]
fn take<W: UnitSink>(
    it: &mut AnyDepacketizer,
    is_avc: bool,
    packet: &[u8],
    out: &mut W,
    extra: &mut CodecExtra,
) -> Result<(), PacketError>
    ensures outcome { IsPacketOutcome (told_depacketization is_avc it.old
        (W.sink out.old).bytes extra.old) packet.now result }
    ensures taken { OnOk result (told_depacketization is_avc it.new
        (W.sink out.new).bytes extra.new
        ≡ after_packets (told_depacketization is_avc it.old
        (W.sink out.old).bytes extra.old) (packet.now ∷ [])) }
    ensures behind { OnOk result (W.sink out.new
        ≡ grown_to (W.sink out.new).bytes (W.sink out.old)) }
    ensures rest { OnOk result (IsShowing packet.now it.old it.new) }
    ensures kept { OnErr result (it.new ≡ it.old) }
    ensures kept_sink { OnErr result (W.sink out.new ≡ W.sink out.old) }
    ensures kept_extra { OnErr result (extra.new ≡ extra.old) }
{
    it.depacketize_as(is_avc, packet, out, extra)
}
