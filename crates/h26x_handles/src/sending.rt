//! A packetizer, and the packets of its last call.

ghost use Rattle.std.specs.Prelude.{◌≡◌, ◌≤◌, [], Err, true, false, IfOk, OnOk, OnErr, IsOk, length, drop};
ghost use Rattle.std.specs.List.{concat};
ghost use Rattle.h26x_model.specs.Send.PacketizerState.{next_packets, after_payload, payload_has_no_effect, one_unit_items, one_unit_packets, after_one_unit};
ghost use Rattle.h26x_packetizer.specs.Placement.{IsPlacement, is_placed};
ghost use Rattle.h26x_codec.specs.Codec.{codec_format, fresh_packetizer_state};
ghost use Rattle.h26x_codec.specs.AnyPacketizer.{any_packetizer_codec, any_packetizer_with_donl, any_packetizer_with_lowest_header, any_packetizer_with_max_packet_size, IsBehindPlaced};
ghost use Rattle.h26x_handles.specs.Settings.{first_settings};
ghost use Rattle.h26x_handles.specs.States.{sending_state};
ghost use Rattle.h26x_codes.specs.Copies.{nth_packet, AreCopied};

use crate::settings::SendingSettings;
use h26x_codec::{AnyPacketizer, Codec};
use h26x_codes::copy::{bytes_from, copy_packets};
use h26x_core::PacketError;
use h26x_packetizer::{PacketBuffer, Placement};
use std::alloc::Global;
use std::marker::Model;
use std::mem;

/// A packetizer of a codec, the packets of its last call, and its settings.
#[derive(Drop)]
pub struct SendingEndpoint {
    /// The packetizer.
    pub packetizer: AnyPacketizer,
    pub(crate) settings: SendingSettings,
    pub(crate) packets: PacketBuffer,
    // Where a call writes: the packets of before stay until it is carried out.
    pub(crate) spare: PacketBuffer,
}

impl Model for SendingEndpoint {
    ghost use Rattle.std.specs.Prelude.{◌≡◌};
    ghost use Rattle.h26x_handles.specs.Endpoint.{SendingEndpoint};

    ghost Value = { SendingEndpoint };

    ghost view = { λ it. record {
      packetizer = it.packetizer;
      packets = it.packets.packets;
      settings = it.settings;
    } };

    ghost invariant = { λ it. (it.packets.headroom ≡ 0) × (it.spare.headroom ≡ 0) };
}

impl SendingEndpoint {
    /// A packetizer for which nothing waits, and no packets.
    pub fn new(alloc: Global, codec: Codec, has_donl: bool) -> Self
        ensures codec { any_packetizer_codec result.packetizer ≡ codec }
        ensures fresh { sending_state result
            ≡ fresh_packetizer_state (codec_format codec has_donl) }
        ensures none { result.packets ≡ [] }
        ensures settings { result.settings ≡ first_settings }
    {
        SendingEndpoint {
            packetizer: AnyPacketizer::new(alloc, codec, has_donl),
            settings: SendingSettings::new(),
            packets: PacketBuffer::new(alloc, 0),
            spare: PacketBuffer::new(alloc, 0),
        }
    }

    /// The same packetizer again, without packets.
    pub fn clone(&self, alloc: Global) -> Result<Self, PacketError>
        ensures same { IfOk result (λ it. it.packetizer ≡ self.now.packetizer) }
        ensures none { IfOk result (λ it. it.packets ≡ []) }
        ensures settings { IfOk result (λ it. it.settings ≡ self.now.settings) }
        ensures memory { OnErr result (result ≡ Err PacketError.OutOfMemory) }
    {
        Ok(SendingEndpoint {
            packetizer: self.packetizer.clone()?,
            settings: self.settings,
            packets: PacketBuffer::new(alloc, 0),
            spare: PacketBuffer::new(alloc, 0),
        })
    }

    /// Turns numbers on, from 0, or off; that of H.264 stays as it is.
    pub fn with_donl(&mut self, has_donl: bool)
        ensures { self.new ≡ record self.old {
          packetizer = any_packetizer_with_lowest_header self.old.settings.lowest_header
              (any_packetizer_with_donl has_donl self.old.packetizer);
        } }
    {
        self.packetizer.with_donl(has_donl);
        self.packetizer
            .with_lowest_header(self.settings.lowest_header);
    }

    /// Sets whether parameter sets that share a packet of H.265 have the header of their own (RFC 7798,
    /// 4.4.2).
    pub fn with_lowest_header(&mut self, lowest_header: bool)
        ensures { self.new ≡ record self.old {
          packetizer = any_packetizer_with_lowest_header lowest_header self.old.packetizer;
          settings = record self.old.settings { lowest_header = lowest_header };
        } }
    {
        self.packetizer.with_lowest_header(lowest_header);
        self.settings.lowest_header = lowest_header;
    }

    /// Sets the largest packet size, in bytes; that of H.264 stays as it is.
    pub fn with_max_packet_size(&mut self, bytes: u16)
        requires { 4 ≤ bytes }
        ensures { self.new ≡ record self.old {
          packetizer = any_packetizer_with_max_packet_size bytes self.old.packetizer;
        } }
    {
        self.packetizer.with_max_packet_size(bytes);
    }

    /// Its settings.
    pub fn settings(&self) -> SendingSettings
        ensures { result ≡ self.now.settings }
    {
        self.settings
    }

    /// Sets them.
    pub fn set(&mut self, settings: SendingSettings)
        ensures { self.new ≡ record self.old { settings = settings } }
    {
        self.settings = settings;
    }

    /// Makes the packets of a payload, which take the place of the last call's.
    pub fn packetize(&mut self, mtu: usize, payload: &[u8]) -> Result<(), PacketError>
        ensures packets { OnOk result (self.new.packets
            ≡ next_packets (sending_state self.old) mtu payload.now) }
        ensures after { OnOk result (sending_state self.new
            ≡ after_payload (sending_state self.old) mtu payload.now) }
        ensures codec { any_packetizer_codec self.new.packetizer
            ≡ any_packetizer_codec self.old.packetizer }
        ensures settings { self.new.settings ≡ self.old.settings }
        ensures kept { OnErr result (self.new ≡ self.old) }
        ensures memory { OnErr result (result ≡ Err PacketError.OutOfMemory) }
        ensures free { payload_has_no_effect (sending_state self.old) mtu payload.now ≡ true →
            IsOk result }
    {
        self.spare.clear();
        self.packetizer
            .packetize_into(mtu, payload, &mut self.spare)?;
        mem::swap(&mut self.packets, &mut self.spare);
        Ok(())
    }

    /// Makes the packets of one unit as it is, which take the place of the last call's.
    pub fn packetize_unit(&mut self, mtu: usize, unit: &[u8]) -> Result<(), PacketError>
        ensures packets { OnOk result (self.new.packets
            ≡ one_unit_packets (sending_state self.old) mtu unit.now) }
        ensures after { OnOk result (sending_state self.new
            ≡ after_one_unit (sending_state self.old) mtu unit.now) }
        ensures codec { any_packetizer_codec self.new.packetizer
            ≡ any_packetizer_codec self.old.packetizer }
        ensures settings { self.new.settings ≡ self.old.settings }
        ensures kept { OnErr result (self.new ≡ self.old) }
        ensures memory { OnErr result (result ≡ Err PacketError.OutOfMemory) }

        // Nothing is sent without memory.
        ensures free { one_unit_items (sending_state self.old) mtu unit.now ≡ [] → IsOk result }
    {
        self.spare.clear();
        self.packetizer
            .packetize_unit_into(mtu, unit, &mut self.spare)?;
        mem::swap(&mut self.packets, &mut self.spare);
        Ok(())
    }

    /// Copies the packets of a payload straight to memory where they fit; else nothing is done.
    pub fn packetize_to_memory(
        &mut self,
        mtu: usize,
        payload: &[u8],
        headroom: usize,
        to: &mut [u8],
        ends: &mut [usize],
    ) -> Result<Placement, PacketError>
        ensures packets { IfOk result (λ it. IsPlacement headroom
            (next_packets (sending_state self.old) mtu payload.now)
            to.old to.new ends.old ends.new it) }
        ensures after { IfOk result (λ it. IsBehindPlaced it
            (λ s. after_payload s mtu payload.now) self.old.packetizer self.new.packetizer) }
        ensures codec { any_packetizer_codec self.new.packetizer
            ≡ any_packetizer_codec self.old.packetizer }
        ensures kept_packets { self.new.packets ≡ self.old.packets }
        ensures settings { self.new.settings ≡ self.old.settings }
        ensures kept_unplaced { IfOk result (λ it. is_placed it ≡ false → self.new ≡ self.old) }
        ensures kept { OnErr result (self.new ≡ self.old) }
        ensures kept_memory { OnErr result ((to.new ≡ to.old) × (ends.new ≡ ends.old)) }
        ensures memory { OnErr result (result ≡ Err PacketError.OutOfMemory) }
        ensures free { payload_has_no_effect (sending_state self.old) mtu payload.now ≡ true →
            IsOk result }
    {
        self.packetizer
            .packetize_to_memory(mtu, payload, headroom, to, ends)
    }

    /// Copies the packets of one unit as it is straight to memory where they fit; else nothing is
    /// done.
    pub fn packetize_unit_to_memory(
        &mut self,
        mtu: usize,
        unit: &[u8],
        headroom: usize,
        to: &mut [u8],
        ends: &mut [usize],
    ) -> Result<Placement, PacketError>
        ensures packets { IfOk result (λ it. IsPlacement headroom
            (one_unit_packets (sending_state self.old) mtu unit.now)
            to.old to.new ends.old ends.new it) }
        ensures after { IfOk result (λ it. IsBehindPlaced it
            (λ s. after_one_unit s mtu unit.now) self.old.packetizer self.new.packetizer) }
        ensures codec { any_packetizer_codec self.new.packetizer
            ≡ any_packetizer_codec self.old.packetizer }
        ensures kept_packets { self.new.packets ≡ self.old.packets }
        ensures settings { self.new.settings ≡ self.old.settings }
        ensures kept_unplaced { IfOk result (λ it. is_placed it ≡ false → self.new ≡ self.old) }
        ensures kept { OnErr result (self.new ≡ self.old) }
        ensures kept_memory { OnErr result ((to.new ≡ to.old) × (ends.new ≡ ends.old)) }
        ensures memory { OnErr result (result ≡ Err PacketError.OutOfMemory) }

        // Nothing is sent without memory.
        ensures free { one_unit_items (sending_state self.old) mtu unit.now ≡ [] → IsOk result }
    {
        self.packetizer
            .packetize_unit_to_memory(mtu, unit, headroom, to, ends)
    }

    /// How many packets there are.
    pub fn count(&self) -> usize
        ensures { result ≡ length self.now.packets }
    {
        self.packets.len()
    }

    /// How many bytes the packets are together.
    pub fn bytes_len(&self) -> usize
        ensures { result ≡ length (concat self.now.packets) }
    {
        bytes_from(&self.packets, 0).len()
    }

    /// A packet; past the last an empty one.
    pub fn packet(&self, i: usize) -> &[u8]
        ensures { result.now ≡ nth_packet i self.now.packets }
    {
        if i < self.packets.len() {
            self.packets.packet(i)
        } else {
            &[]
        }
    }

    /// Copies packets from a first one on to the front of a buffer, as many as there is room for,
    /// and writes where each ends; how many they are.
    pub fn copy_packets(&self, first: usize, to: &mut [u8], ends: &mut [usize]) -> usize
        ensures { AreCopied (drop first self.now.packets) to.old to.new ends.old ends.new result }
    {
        copy_packets(&self.packets, first, to, ends)
    }
}
