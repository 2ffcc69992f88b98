//! A packetizer of any codec, or a caller's own.

ghost use Rattle.std.specs.Prelude.{◌≡◌, ◌≤◌, [], true, false, Some, None, Ok, Err, IfOk, IfSome, OnOk, OnErr, IsOk};
ghost use Rattle.std.specs.Option.{option_map};
ghost use Rattle.h26x_model.specs.Send.Limit.{AreWithinLimit};
ghost use Rattle.h26x_model.specs.Send.PacketizerState.{PacketizerState, IsSentAsPlanned, next_call, next_packets, after_payload, payload_has_no_effect, one_unit_items, one_unit_packets, after_one_unit};
ghost use Rattle.h26x_model.specs.Send.Rival.{TakesFewestFragments};
ghost use Rattle.h26x_packetizer.specs.Sending.{contents};
ghost use Rattle.h26x_packetizer.specs.Buffer.{IsAppended, with_packets, with_memory, IsMemoryWith};
ghost use Rattle.h26x_packetizer.specs.Group.{lent_units};
ghost use Rattle.h26x_packetizer.specs.Placement.{IsSizeOf};
ghost use Rattle.h26x_codec.specs.Codec.{default_format, fresh_packetizer_state, limit_at};
ghost use Rattle.h26x_transmission.specs.CodecStates.{codec_packetizer_state, packetizer_codec, with_max_don_diff, with_max_packet_size, OfPacketizer};
ghost use Rattle.h26x_transmission.specs.EveryUnits.{codec_every_packets, codec_units_refusal, codec_after_units, AreBoth};
ghost use Rattle.h26x_transmission.specs.declared.packetizer.CodecPacketizer.TheVariants as p;
ghost use Rattle.h264_payload.specs.H264.{h264};
ghost use Rattle.h265_payload.specs.Setting as h265_setting;
ghost use Rattle.h266_payload.specs.Setting as h266_setting;
ghost use Rattle.h26x_packetizer.specs.PacketizerView.{packetizer_state};
ghost use Rattle.h26x_model.specs.Send.PacketizerState.{packetizer_meaning};

use h26x_codec::Codec;
use h26x_codec::formats::formats_meet_the_facts;
use h26x_core::{PacketError, Packetizer};
use h26x_packetizer::{EveryUnitError, PacketBuffer, PacketsSize, Packing, RefusedUnit};
use h264_payload::H264Packetizer;
use h265_payload::H265Packetizer;
use h266_payload::H266Packetizer;
use std::alloc::Global;
use std::fmt;

/// A packetizer of one of the codecs, or a caller's own in a box.
///
/// Every call goes to the packetizer that it holds.
///
/// ```rust
/// let mut packetizer = CodecPacketizer::new(alloc, Codec::H265);
/// packetizer.configure_for(sprop_max_don_diff);
/// for packet in &packetizer.packetize(1200, frame)? {
///     send(packet);
/// }
/// ```
#[derive(Drop)]
pub enum CodecPacketizer {
    /// Sends H.264 (RFC 6184).
    H264(H264Packetizer),
    /// Sends H.265 (RFC 7798).
    H265(H265Packetizer),
    /// Sends H.266 (RFC 9328).
    H266(H266Packetizer),
    /// A caller's own packetizer. Nothing is known of it but the laws of [`Packetizer`].
    Boxed(Box<dyn Packetizer>),
}

impl fmt::Debug for CodecPacketizer {
    /// The packetizer of a codec behind its codec's name; of one in a box only `Boxed`.
    fn fmt<W: fmt::Write>(&self, f: &mut fmt::Formatter<W>) -> fmt::Result {
        match self {
            CodecPacketizer::H264(it) => write!(f, "H264({it:?})"),
            CodecPacketizer::H265(it) => write!(f, "H265({it:?})"),
            CodecPacketizer::H266(it) => write!(f, "H266({it:?})"),
            CodecPacketizer::Boxed(_) => write!(f, "Boxed"),
        }
    }
}

impl CodecPacketizer {
    /// A packetizer of a codec (RFC 6184, RFC 7798, RFC 9328) for which nothing waits, without
    /// decoding order numbers, and with 1200 bytes as the largest packet size. Its memory comes
    /// from `alloc`; none is taken here.
    pub fn new(alloc: Global, codec: Codec) -> Self
        ensures codec { packetizer_codec result ≡ Some codec }
        ensures fresh { codec_packetizer_state result
            ≡ Some (fresh_packetizer_state (default_format codec)) }
    {
        match codec {
            Codec::H264 => CodecPacketizer::H264(H264Packetizer::new(alloc)),
            Codec::H265 => CodecPacketizer::H265(H265Packetizer::new(alloc)),
            Codec::H266 => CodecPacketizer::H266(H266Packetizer::new(alloc)),
        }
    }

    /// Sets numbers up by `sprop-max-don-diff` of a session description, the greatest distance
    /// between decoding and sending order (RFC 7798, 7.1; RFC 9328, 7.2).
    ///
    /// Where it is over 0, units of H.265 and H.266 bear decoding order numbers from then on, which
    /// begin at 0, and sets that wait stay. None and 0 change nothing, and neither does any value
    /// for H.264 or a packetizer in a box. It takes no memory.
    pub fn configure_for(&mut self, sprop_max_don_diff: Option<u32>)
        ensures { self.new ≡ with_max_don_diff sprop_max_don_diff self.old }
    {
        if sprop_max_don_diff.unwrap_or(0) == 0 {
            return;
        }
        match self {
            CodecPacketizer::H265(it) => it.with_donl(true),
            CodecPacketizer::H266(it) => it.with_donl(true),
            CodecPacketizer::H264(_) | CodecPacketizer::Boxed(_) => {}
        }
    }

    /// Sets the largest packet size of H.265 and H.266, in bytes, 4 or more: no packet of a later
    /// call is longer. For H.264 and a packetizer in a box it changes nothing. It takes no memory.
    pub fn with_max_packet_size(&mut self, n: u16)
        requires { 4 ≤ n }
        ensures { self.new ≡ with_max_packet_size n self.old }
    {
        match self {
            CodecPacketizer::H265(it) => it.with_max_packet_size(n),
            CodecPacketizer::H266(it) => it.with_max_packet_size(n),
            CodecPacketizer::H264(_) | CodecPacketizer::Boxed(_) => {}
        }
    }

    /// Appends the packets of a payload to a buffer, in order, each behind its headroom, which the
    /// limit doesn't count.
    ///
    /// They are those of [`packetize`](Packetizer::packetize), and the packetizer is left as that
    /// leaves it. A refusal leaves the packets that stood in the buffer; of a codec `OutOfMemory` is
    /// the only one, and leaves the packetizer too. One in a box makes its packets first, and they are
    /// copied in: where memory lacks for the copy, they are lost.
    pub fn packetize_into(
        &mut self,
        mtu: usize,
        b: &[u8],
        into: &mut PacketBuffer,
    ) -> Result<(), PacketError>
        ensures packets { OfPacketizer self.old
            (λ s. OnOk result (into.new ≡ with_packets into.old (next_packets s mtu b.now)
            into.new.memory)) }
        ensures bounded { OfPacketizer self.old
            (λ s. OnOk result (IsMemoryWith into.old (next_packets s mtu b.now)
            into.new.memory)) }
        ensures after { OfPacketizer self.old
            (λ s. OnOk result
            (codec_packetizer_state self.new ≡ Some (after_payload s mtu b.now))) }
        ensures codec { packetizer_codec self.new ≡ packetizer_codec self.old }

        ensures kept { OfPacketizer self.old (λ s. OnErr result (self.new ≡ self.old)) }
        ensures memory { OfPacketizer self.old
            (λ s. OnErr result (result ≡ Err PacketError.OutOfMemory)) }

        // Calls without effect take no memory.
        ensures free { OfPacketizer self.old
            (λ s. payload_has_no_effect s mtu b.now ≡ true → IsOk result) }

        // A packetizer in a box too.
        ensures appended { OnOk result (IsAppended into.old into.new) }
        ensures kept_packets { OnErr result (into.new ≡ with_memory into.old into.new.memory) }
    {
        match self {
            CodecPacketizer::H264(it) => it.packetize_into(mtu, b, into),
            CodecPacketizer::H265(it) => it.packetize_into(mtu, b, into),
            CodecPacketizer::H266(it) => it.packetize_into(mtu, b, into),
            CodecPacketizer::Boxed(it) => {
                let packets = it.packetize(mtu, b)?;
                into.push_all(&packets)?;
                Ok(())
            }
        }
    }

    /// The packets of one NAL unit as it is, without a start code and whatever its kind; the sets
    /// that wait stay. One in a box is given the unit as a payload.
    pub fn packetize_unit(&mut self, mtu: usize, unit: &[u8]) -> Result<Vec<Vec<u8>>, PacketError>
        ensures packets { OfPacketizer self.old
            (λ s. IfOk result (λ made. contents made.items ≡ one_unit_packets s mtu unit.now)) }
        ensures after { OfPacketizer self.old
            (λ s. OnOk result (codec_packetizer_state self.new ≡ Some (after_one_unit s mtu
            unit.now))) }
        ensures within { OfPacketizer self.old
            (λ s. IfOk result (λ made. AreWithinLimit (limit_at s mtu)
            (contents made.items))) }
        ensures codec { packetizer_codec self.new ≡ packetizer_codec self.old }

        ensures kept { OfPacketizer self.old (λ s. OnErr result (self.new ≡ self.old)) }
        ensures memory { OfPacketizer self.old
            (λ s. OnErr result (result ≡ Err PacketError.OutOfMemory)) }

        // Nothing is sent without memory.
        ensures free { OfPacketizer self.old
            (λ s. one_unit_items s mtu unit.now ≡ [] → IsOk result) }
    {
        match self {
            CodecPacketizer::H264(it) => it.packetize_unit(mtu, unit),
            CodecPacketizer::H265(it) => it.packetize_unit(mtu, unit),
            CodecPacketizer::H266(it) => it.packetize_unit(mtu, unit),
            CodecPacketizer::Boxed(it) => it.packetize(mtu, unit),
        }
    }

    /// Appends the packets of [`packetize_unit`](CodecPacketizer::packetize_unit) to a buffer, each
    /// behind its headroom. Refusals leave what those of
    /// [`packetize_into`](CodecPacketizer::packetize_into) do.
    pub fn packetize_unit_into(
        &mut self,
        mtu: usize,
        unit: &[u8],
        into: &mut PacketBuffer,
    ) -> Result<(), PacketError>
        ensures packets { OfPacketizer self.old
            (λ s. OnOk result (into.new ≡ with_packets into.old (one_unit_packets s mtu
            unit.now) into.new.memory)) }
        ensures bounded { OfPacketizer self.old
            (λ s. OnOk result (IsMemoryWith into.old (one_unit_packets s mtu unit.now)
            into.new.memory)) }
        ensures after { OfPacketizer self.old
            (λ s. OnOk result (codec_packetizer_state self.new ≡ Some (after_one_unit s mtu
            unit.now))) }
        ensures codec { packetizer_codec self.new ≡ packetizer_codec self.old }

        ensures kept { OfPacketizer self.old (λ s. OnErr result (self.new ≡ self.old)) }
        ensures memory { OfPacketizer self.old
            (λ s. OnErr result (result ≡ Err PacketError.OutOfMemory)) }

        // Nothing is sent without memory.
        ensures free { OfPacketizer self.old
            (λ s. one_unit_items s mtu unit.now ≡ [] → IsOk result) }

        // A packetizer in a box too.
        ensures appended { OnOk result (IsAppended into.old into.new) }
        ensures kept_packets { OnErr result (into.new ≡ with_memory into.old into.new.memory) }
    {
        match self {
            CodecPacketizer::H264(it) => it.packetize_unit_into(mtu, unit, into),
            CodecPacketizer::H265(it) => it.packetize_unit_into(mtu, unit, into),
            CodecPacketizer::H266(it) => it.packetize_unit_into(mtu, unit, into),
            CodecPacketizer::Boxed(it) => {
                let packets = it.packetize(mtu, unit)?;
                into.push_all(&packets)?;
                Ok(())
            }
        }
    }

    /// The packets of the NAL units of one access unit, each without its start code, none of which is
    /// left out, in order and as they are: those that fit one packet together
    /// (RFC 6184, 5.7.1; RFC 7798, 4.4.2; RFC 9328, 4.3.2), the others alone or in fragments. Sets that
    /// wait stay.
    ///
    /// The first unit that can't go is named, and nothing is sent then. Else `OutOfMemory` is the only
    /// error. Both leave everything. `None` of one in a box, whose trait has no such call: nothing is
    /// done.
    pub fn packetize_units<'a>(
        &mut self,
        packing: Packing,
        mtu: usize,
        units: &'a [&'a [u8]],
    ) -> Result<Option<Vec<Vec<u8>>>, EveryUnitError>
        ensures packets { IfOk result (λ made. option_map (λ it. contents it.items) made
            ≡ codec_every_packets packing self.old mtu (lent_units units.now)) }
        ensures after { OnOk result (codec_packetizer_state self.new
            ≡ codec_after_units self.old (lent_units units.now)) }
        ensures codec { packetizer_codec self.new ≡ packetizer_codec self.old }

        ensures kept { OnErr result (self.new ≡ self.old) }
        ensures refused { (unit : RefusedUnit) →
            codec_units_refusal packing self.old mtu (lent_units units.now) ≡ Some unit →
            result ≡ Err (EveryUnitError.Unit unit) }
        ensures memory { codec_units_refusal packing self.old mtu (lent_units units.now) ≡ None →
            OnErr result (result ≡ Err EveryUnitError.OutOfMemory) }

        // A packetizer in a box isn't asked.
        ensures boxed { packetizer_codec self.old ≡ None →
            (result ≡ Ok None) × (self.new ≡ self.old) }
    {
        match self {
            CodecPacketizer::H264(it) => Ok(Some(it.packetize_units(packing, mtu, units)?)),
            CodecPacketizer::H265(it) => Ok(Some(it.packetize_units(packing, mtu, units)?)),
            CodecPacketizer::H266(it) => Ok(Some(it.packetize_units(packing, mtu, units)?)),
            CodecPacketizer::Boxed(_) => Ok(None),
        }
    }

    /// Appends the packets of [`packetize_units`](CodecPacketizer::packetize_units) to a buffer, each
    /// behind its headroom. A refusal leaves the packets that stood there, and so does `None`, of one
    /// in a box.
    pub fn packetize_units_into<'a>(
        &mut self,
        packing: Packing,
        mtu: usize,
        units: &'a [&'a [u8]],
        into: &mut PacketBuffer,
    ) -> Result<Option<()>, EveryUnitError>
        ensures packets { IfSome (codec_every_packets packing self.old mtu (lent_units units.now))
            (λ packets. OnOk result (into.new ≡ with_packets into.old packets into.new.memory)) }
        ensures bounded { IfSome (codec_every_packets packing self.old mtu (lent_units units.now))
            (λ packets. OnOk result (IsMemoryWith into.old packets into.new.memory)) }
        ensures after { OnOk result (codec_packetizer_state self.new
            ≡ codec_after_units self.old (lent_units units.now)) }
        ensures codec { packetizer_codec self.new ≡ packetizer_codec self.old }
        ensures asked { IfOk result (λ it.
            it ≡ option_map (λ codec. tt) (packetizer_codec self.old)) }

        ensures kept { OnErr result (self.new ≡ self.old) }
        ensures kept_packets { OnErr result (into.new ≡ with_memory into.old into.new.memory) }
        ensures refused { (unit : RefusedUnit) →
            codec_units_refusal packing self.old mtu (lent_units units.now) ≡ Some unit →
            result ≡ Err (EveryUnitError.Unit unit) }
        ensures memory { codec_units_refusal packing self.old mtu (lent_units units.now) ≡ None →
            OnErr result (result ≡ Err EveryUnitError.OutOfMemory) }

        // A packetizer in a box isn't asked.
        ensures boxed { packetizer_codec self.old ≡ None →
            (result ≡ Ok None) × ((self.new ≡ self.old) × (into.new ≡ into.old)) }
    {
        match self {
            CodecPacketizer::H264(it) => it.packetize_units_into(packing, mtu, units, into)?,
            CodecPacketizer::H265(it) => it.packetize_units_into(packing, mtu, units, into)?,
            CodecPacketizer::H266(it) => it.packetize_units_into(packing, mtu, units, into)?,
            CodecPacketizer::Boxed(_) => return Ok(None),
        }
        Ok(Some(()))
    }

    /// How many packets [`packetize_units_into`](CodecPacketizer::packetize_units_into) would make of
    /// units, and how many bytes they take with `headroom` bytes before each; `None` of one in a box.
    /// Nothing changes, and units are refused as there.
    pub fn units_size<'a>(
        &self,
        packing: Packing,
        mtu: usize,
        units: &'a [&'a [u8]],
        headroom: usize,
    ) -> Result<Option<PacketsSize>, EveryUnitError>
        ensures size { IfOk result (λ it. AreBoth (IsSizeOf headroom)
            (codec_every_packets packing self.now mtu (lent_units units.now)) it) }
        ensures refused { (unit : RefusedUnit) →
            codec_units_refusal packing self.now mtu (lent_units units.now) ≡ Some unit →
            result ≡ Err (EveryUnitError.Unit unit) }
        ensures memory { codec_units_refusal packing self.now mtu (lent_units units.now) ≡ None →
            OnErr result (result ≡ Err EveryUnitError.OutOfMemory) }

        // A packetizer in a box isn't asked.
        ensures boxed { packetizer_codec self.now ≡ None → result ≡ Ok None }
    {
        let size = match self {
            CodecPacketizer::H264(it) => it.units_size(packing, mtu, units, headroom)?,
            CodecPacketizer::H265(it) => it.units_size(packing, mtu, units, headroom)?,
            CodecPacketizer::H266(it) => it.units_size(packing, mtu, units, headroom)?,
            CodecPacketizer::Boxed(_) => return Ok(None),
        };
        Ok(Some(size))
    }
}

impl Packetizer for CodecPacketizer {
    // What the later answers of the packetizer that it holds depend on.
    ghost meaning = { elim [
      | p.H264 it ↦ packetizer_meaning (packetizer_state h264 it)
      | p.H265 it ↦ packetizer_meaning (packetizer_state (h265_setting.sending_format it.codec) it)
      | p.H266 it ↦ packetizer_meaning (packetizer_state (h266_setting.setting_format it.codec) it)
      | p.Boxed it ↦ (Packetizer-box it).Packetizer.meaning it.value
    ] };

    /// The packets of a payload, in order, as the packetizer that it holds makes them.
    ///
    /// Of a codec: each is within the limit of the call, the lesser of `mtu` and for H.265 and
    /// H.266 the largest packet size. `OutOfMemory` is the only error, and leaves everything.
    fn packetize(&mut self, mtu: usize, b: &[u8]) -> Result<Vec<Vec<u8>>, PacketError>
        ensures packets { OfPacketizer self.old
            (λ s. IfOk result (λ made. contents made.items ≡ next_packets s mtu b.now)) }
        ensures after { OfPacketizer self.old
            (λ s. OnOk result
            (codec_packetizer_state self.new ≡ Some (after_payload s mtu b.now))) }
        ensures planned { (s after : PacketizerState) → codec_packetizer_state self.old ≡ Some s →
            codec_packetizer_state self.new ≡ Some after → IfOk result (λ made.
            IsSentAsPlanned s (next_call s mtu b.now) (contents made.items) after) }
        ensures fewest { OfPacketizer self.old (λ s. TakesFewestFragments s.format) }
        ensures within { OfPacketizer self.old
            (λ s. IfOk result (λ made. AreWithinLimit (limit_at s mtu)
            (contents made.items))) }
        ensures codec { packetizer_codec self.new ≡ packetizer_codec self.old }

        ensures kept { OfPacketizer self.old (λ s. OnErr result (self.new ≡ self.old)) }
        ensures memory { OfPacketizer self.old
            (λ s. OnErr result (result ≡ Err PacketError.OutOfMemory)) }

        // Calls without effect take no memory.
        ensures free { OfPacketizer self.old
            (λ s. payload_has_no_effect s mtu b.now ≡ true → IsOk result) }
        ensures without_effect { OfPacketizer self.old
            (λ s. payload_has_no_effect s mtu b.now ≡ true → IfOk result (λ made.
            (made.items ≡ []) × (self.new ≡ self.old))) }

        // A packetizer in a box too.
        ensures refused { OnErr result (⟦<Self as Packetizer>⟧.meaning self.new
            ≡ ⟦<Self as Packetizer>⟧.meaning self.old) }
    {
        formats_meet_the_facts();
        h26x_model::laws::fewest_fragments();
        match self {
            CodecPacketizer::H264(it) => it.packetize(mtu, b),
            CodecPacketizer::H265(it) => it.packetize(mtu, b),
            CodecPacketizer::H266(it) => it.packetize(mtu, b),
            CodecPacketizer::Boxed(it) => it.packetize(mtu, b),
        }
    }

    /// Whether a packet bears the marker bit, as the packetizer that it holds says. Of a codec: the
    /// last packet of an access unit.
    fn is_marker(&mut self, data: &[u8], previous: Option<&[u8]>, last: bool) -> bool
        ensures is { OfPacketizer self.old (λ s. result ≡ last) }
        ensures kept { OfPacketizer self.old (λ s. self.new ≡ self.old) }
        ensures codec { packetizer_codec self.new ≡ packetizer_codec self.old }

        // A packetizer in a box too.
        ensures kept_meaning { ⟦<Self as Packetizer>⟧.meaning self.new
            ≡ ⟦<Self as Packetizer>⟧.meaning self.old }
    {
        match self {
            CodecPacketizer::H264(it) => it.is_marker(data, previous, last),
            CodecPacketizer::H265(it) => it.is_marker(data, previous, last),
            CodecPacketizer::H266(it) => it.is_marker(data, previous, last),
            CodecPacketizer::Boxed(it) => it.is_marker(data, previous, last),
        }
    }

    /// Whether the marker bit marks the start of a talkspurt, as the packetizer that it holds says.
    /// It does so for no video codec.
    fn marks_talkspurt(&self) -> bool
        ensures { OfPacketizer self.now (λ s. result ≡ false) }
    {
        match self {
            CodecPacketizer::H264(it) => it.marks_talkspurt(),
            CodecPacketizer::H265(it) => it.marks_talkspurt(),
            CodecPacketizer::H266(it) => it.marks_talkspurt(),
            CodecPacketizer::Boxed(it) => it.marks_talkspurt(),
        }
    }

    /// Whether a receiver may ask for a lost packet again, as the packetizer that it holds says. Of
    /// a codec it may.
    fn nackable(&self) -> bool
        ensures { OfPacketizer self.now (λ s. result ≡ true) }
    {
        match self {
            CodecPacketizer::H264(it) => it.nackable(),
            CodecPacketizer::H265(it) => it.nackable(),
            CodecPacketizer::H266(it) => it.nackable(),
            CodecPacketizer::Boxed(it) => it.nackable(),
        }
    }
}
