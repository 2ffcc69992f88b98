//! The packets of payloads, for every codec.

ghost use Rattle.std.specs.Prelude.{◌≡◌, ◌≤◌, ◌++◌, ◌∷◌, ℕ, [], true, false, OnOk, OnErr, IfOk, IsOk, None, length, drop, Err};
ghost use Rattle.std.specs.Option.{option_map};
ghost use Rattle.h26x_model.specs.Send.Limit.{AreWithinLimit};
ghost use Rattle.h26x_model.specs.Send.WaitingSets.{waiting_after_unit, outgoing_items, no_waiting_sets};
ghost use Rattle.h26x_model.specs.Send.PacketizerState.{is_skipped, are_skipped, next_packets, payload_has_no_effect};
ghost use Rattle.h26x_model.specs.Where.{Where};
ghost use Rattle.h26x_payload.specs.Sets.{lent_set};
ghost use Rattle.h26x_packetizer.specs.Sending.{contents, ArePushed, latest_set, outgoing_to_items, is_nothing, kept_set};
ghost use Rattle.h26x_packetizer.specs.Buffer.{with_packets, with_memory, IsMemoryWith};
ghost use Rattle.h26x_packetizer.specs.Placement.{IsPlacement, IsSizeOf, if_placed};
ghost use Rattle.h26x_packetizer.specs.PacketizerView.{IsPacketizerView, IsViewSentAsPlanned, SendsAsPlanned, packetizer_of, fresh_packetizer, limit_of, view_after_call, view_with_update, held_sets, payload_plan, waiting_after_payload};

use crate::buffer::{Appending, PacketBuffer};
use crate::packet_parts::PacketParts;
use crate::placement::{PacketsSize, Placement, place, size_of};
use crate::sink::PacketSink;
use crate::units::{Outgoing, push_outgoing};
use crate::update::Update;
use h26x_core::{PacketError, Packetizer};
use h26x_model::laws;
use h26x_payload::{DonlFormat, PayloadFormat, Sets, UnitKind};
use std::alloc::Global;
use std::marker::Model;

/// The largest packet size of a new packetizer, in bytes.
const FIRST_LARGEST: u16 = 1200;

/// What a payload has brought so far: whether the sets from before were sent, and the sets since.
#[derive(Clone, Copy)]
pub struct Brought<'a> {
    are_sent: bool,
    vps: Option<&'a [u8]>,
    sps: Option<&'a [u8]>,
    pps: Option<&'a [u8]>,
}

/// Sends the units of payloads (RFC 6184, 5 and 6.3; RFC 7798, 4.4 and 5; RFC 9328, 4.3 and 5).
///
/// A unit that fits goes alone, a longer one in fragments. Parameter sets wait, each the latest of
/// its kind, and go before the next other unit once there are an SPS and a PPS.
#[derive(Debug, Drop)]
pub struct PayloadPacketizer<C: PayloadFormat> {
    pub(crate) codec: C,
    vps: Option<Vec<u8>>,
    sps: Option<Vec<u8>>,
    pps: Option<Vec<u8>>,
    pub(crate) next_don: u16,
    max_packet_size: u16,
    pub(crate) alloc: Global,
}

impl<C: PayloadFormat> Model for PayloadPacketizer<C> {
    ghost use Rattle.std.specs.Option.{option_map};
    ghost use Rattle.h26x_packetizer.specs.PacketizerView.{PacketizerView, IsPacketizer, packetizer_view, packetizer_state};

    ghost Value = { PacketizerView C };

    ghost view = { λ a. packetizer_view a.codec (option_map (λ v. v.items) a.vps)
        (option_map (λ v. v.items) a.sps) (option_map (λ v. v.items) a.pps) a.next_don
        a.max_packet_size };

    ghost invariant = { λ a. IsPacketizer (C.format a.codec) (packetizer_state (C.format a.codec)
        (packetizer_view a.codec (option_map (λ v. v.items) a.vps) (option_map (λ v. v.items) a.sps)
        (option_map (λ v. v.items) a.pps) a.next_don a.max_packet_size)) };
}

/// The latest set, if one waits.
fn newest_of<'a>(
    old: &'a Option<Vec<u8>>,
    are_sent: bool,
    brought: Option<&'a [u8]>,
) -> Option<&'a [u8]>
    ensures { lent_set result ≡ latest_set (kept_set old.now) are_sent (lent_set brought.entry) }
{
    match brought {
        Some(set) => Some(set),
        None => {
            if are_sent {
                None
            } else {
                match old {
                    Some(set) => Some(set.as_slice()),
                    None => None,
                }
            }
        }
    }
}

/// A copy of a set, if there is one.
fn copied(alloc: Global, set: Option<&[u8]>) -> Result<Option<Vec<u8>>, PacketError>
    ensures same { IfOk result (λ it. option_map (λ v. v.items) it ≡ option_map
        (λ s. s.now) set.entry) }
    ensures none { set.entry ≡ None → IsOk result }
    ensures memory { OnErr result (result ≡ Err PacketError.OutOfMemory) }
{
    match set {
        Some(set) => Ok(Some(set.to_vec(alloc)?)),
        None => Ok(None),
    }
}

/// Puts the latest set in place.
fn replace_set(set: &mut Option<Vec<u8>>, are_sent: bool, brought: Option<Vec<u8>>)
    ensures { kept_set set.new ≡ latest_set (kept_set set.old) are_sent (kept_set brought) }
{
    if are_sent || brought.is_some() {
        *set = brought;
    }
}

impl<C: PayloadFormat> PayloadPacketizer<C> {
    /// A packetizer for which nothing waits; its memory comes from `alloc`.
    pub fn new(alloc: Global) -> Self
        ensures { result ≡ fresh_packetizer C.fresh }
    {
        PayloadPacketizer::with_codec(alloc, C::new())
    }

    /// A packetizer of this setting for which nothing waits; its memory comes from `alloc`.
    pub fn with_codec(alloc: Global, codec: C) -> Self
        ensures { result ≡ fresh_packetizer codec }
    {
        PayloadPacketizer {
            codec,
            vps: None,
            sps: None,
            pps: None,
            next_don: 0,
            max_packet_size: FIRST_LARGEST,
            alloc,
        }
    }

    /// Its codec's setting.
    pub fn codec(&self) -> C
        ensures { result ≡ self.now.codec }
    {
        self.codec
    }

    /// A packetizer with the same setting, sets that wait, next number and largest packet size.
    /// `OutOfMemory` is its only error.
    pub fn clone(&self) -> Result<Self, PacketError>
        ensures same { IfOk result (λ it. it ≡ self.now) }
        ensures none { self.now.waiting ≡ no_waiting_sets → IsOk result }
        ensures memory { OnErr result (result ≡ Err PacketError.OutOfMemory) }
    {
        let vps = copied(self.alloc, self.vps.as_deref())?;
        let sps = copied(self.alloc, self.sps.as_deref())?;
        let pps = copied(self.alloc, self.pps.as_deref())?;
        Ok(PayloadPacketizer {
            codec: self.codec,
            vps,
            sps,
            pps,
            next_don: self.next_don,
            max_packet_size: self.max_packet_size,
            alloc: self.alloc,
        })
    }

    /// The limit of a call.
    pub(crate) fn limit(&self, mtu: usize) -> usize
        ensures { result ≡ limit_of C.format self.now mtu }
    {
        if self.codec.has_max_packet_size() {
            mtu.min(usize::from(self.max_packet_size))
        } else {
            mtu
        }
    }

    /// What goes out when this unit of a payload comes, with the sets that wait then.
    fn next_outgoing<'a>(&'a self, unit: &'a [u8], brought: &mut Brought<'a>) -> Outgoing<'a>
        ensures sent { (limit : ℕ) → outgoing_to_items (C.format self.now.codec) limit unit.now
            result ≡ outgoing_items (C.format self.now.codec) (held_sets self.now brought.old)
            (record { unit = unit.now; limit = limit }) }
        ensures waits { held_sets self.now brought.new ≡ waiting_after_unit
            (C.format self.now.codec) (held_sets self.now brought.old) unit.now }
        ensures whole { is_nothing result ≡ false →
            (C.format self.now.codec).header_len ≤ length unit.now }
        ensures skipped { is_skipped ((C.format self.now.codec).kind unit.now) ≡ true →
            (result ≡ Outgoing.Nothing) × (brought.new ≡ brought.old) }
    {
        match self.codec.kind_of(unit) {
            UnitKind::Skipped => Outgoing::Nothing,
            UnitKind::Vps => {
                brought.vps = Some(unit);
                Outgoing::Nothing
            }
            UnitKind::Sps => {
                brought.sps = Some(unit);
                Outgoing::Nothing
            }
            UnitKind::Pps => {
                brought.pps = Some(unit);
                Outgoing::Nothing
            }
            UnitKind::Other => {
                let vps = newest_of(&self.vps, brought.are_sent, brought.vps);
                let sps = newest_of(&self.sps, brought.are_sent, brought.sps);
                let pps = newest_of(&self.pps, brought.are_sent, brought.pps);
                match (sps, pps) {
                    (Some(sps), Some(pps)) => {
                        *brought = Brought {
                            are_sent: true,
                            vps: None,
                            sps: None,
                            pps: None,
                        };
                        Outgoing::SetsAndUnit(Sets { vps, sps, pps })
                    }
                    _ => Outgoing::Unit,
                }
            }
        }
    }

    /// Appends the packets of a payload, and tells what it brought and the next number.
    fn push_payload<'a, S: PacketSink<'a>>(
        &'a self,
        limit: usize,
        b: &'a [u8],
        made: &mut S,
    ) -> Result<(Brought<'a>, u16), PacketError>
        ensures sent { IfOk result (λ it. ArePushed (C.format self.now.codec) self.now.next_don
            (payload_plan C.format self.now limit b.now)
            (S.packets made.old) (S.packets made.new) it.1) }
        ensures waits { IfOk result (λ it.
            held_sets self.now it.0 ≡ waiting_after_payload C.format self.now limit b.now) }
        ensures skipped { are_skipped (C.format self.now.codec)
            ((C.format self.now.codec).units b.now) ≡ true → IfOk result (λ it. (it.0.vps ≡ None)
            × (it.0.sps ≡ None) × (it.0.pps ≡ None)) × IsOk result }
        ensures before { S.before made.new ≡ S.before made.old }
        ensures memory { OnErr result (result ≡ Err PacketError.OutOfMemory) }
    {
        let mut brought = Brought {
            are_sent: false,
            vps: None,
            sps: None,
            pps: None,
        };
        laws::donl_has_two_bytes();
        let mut don = self.next_don;
        for unit in self.codec.units_in(b) {
            let outgoing = self.next_outgoing(unit, &mut brought);
            don = push_outgoing(self.codec, limit, don, unit, outgoing, made)?;
        }
        Ok((brought, don))
    }

    /// A law of each call: it does what is planned of whole lists, and one without effect has no
    /// packets and changes nothing.
    fn goes_as_planned(&self, mtu: usize, b: &[u8])
        ensures planned { IsViewSentAsPlanned C.format self.now mtu b.now }
        ensures without_effect { payload_has_no_effect (packetizer_of C.format self.now) mtu b.now
            ≡ true → (next_packets (packetizer_of C.format self.now) mtu b.now ≡ [])
            × (view_after_call C.format self.now mtu b.now ≡ self.now) }
    {
        laws::packetizers_go_on();
        let _ = &self.codec;
    }

    /// Appends the packets of a payload, and tells what the call changes.
    fn prepare<'a, S: PacketSink<'a>>(
        &'a self,
        mtu: usize,
        b: &'a [u8],
        made: &mut S,
    ) -> Result<Update, PacketError>
        ensures packets { OnOk result (S.packets made.new ≡ S.packets made.old
            ++ next_packets (packetizer_of C.format self.now) mtu b.now) }
        ensures after { IfOk result (λ it.
            view_with_update self.now it ≡ view_after_call C.format self.now mtu b.now) }
        ensures is { IfOk result (λ it. IsPacketizerView C.format (view_with_update self.now it)) }
        ensures before { S.before made.new ≡ S.before made.old }

        ensures memory { OnErr result (result ≡ Err PacketError.OutOfMemory) }

        // Calls without effect take no memory.
        ensures free { payload_has_no_effect (packetizer_of C.format self.now) mtu b.now ≡ true →
            IsOk result }
    {
        laws::packetizers_go_on();
        if mtu < self.codec.least_mtu() {
            return Ok(Update::number(self.next_don));
        }
        let (brought, next_don) = self.push_payload(self.limit(mtu), b, made)?;
        let vps = copied(self.alloc, brought.vps)?;
        let sps = copied(self.alloc, brought.sps)?;
        let pps = copied(self.alloc, brought.pps)?;
        let next_don = if self.codec.has_donl() {
            next_don
        } else {
            self.next_don
        };
        Ok(Update {
            are_sent: brought.are_sent,
            vps,
            sps,
            pps,
            next_don,
        })
    }

    /// Carries out a call.
    pub(crate) fn commit(&mut self, update: Update)
        requires { IsPacketizerView C.format (view_with_update self.old update) }
        ensures { self.new ≡ view_with_update self.old update }
    {
        replace_set(&mut self.vps, update.are_sent, update.vps);
        replace_set(&mut self.sps, update.are_sent, update.sps);
        replace_set(&mut self.pps, update.are_sent, update.pps);
        self.next_don = update.next_don;
    }

    /// Appends the packets of a payload to a buffer, in order, each within the limit of the call and
    /// behind its headroom, which the limit doesn't count.
    ///
    /// They are those of [`packetize`](Packetizer::packetize), and what waits afterwards is what waits
    /// after it. `OutOfMemory` is its only error, and leaves everything.
    pub fn packetize_into(
        &mut self,
        mtu: usize,
        b: &[u8],
        into: &mut PacketBuffer,
    ) -> Result<(), PacketError>
        ensures packets { OnOk result (into.new ≡ with_packets into.old
            (next_packets (packetizer_of C.format self.old) mtu b.now) into.new.memory) }
        ensures after { OnOk result (self.new ≡ view_after_call C.format self.old mtu b.now) }
        ensures planned { OnOk result (SendsAsPlanned C.format self.old mtu b.now
            (drop (length into.old.packets) into.new.packets) self.new) }
        ensures bounded { OnOk result (IsMemoryWith into.old
            (next_packets (packetizer_of C.format self.old) mtu b.now) into.new.memory) }

        ensures kept { OnErr result (self.new ≡ self.old) }
        ensures kept_packets { OnErr result (into.new ≡ with_memory into.old into.new.memory) }
        ensures memory { OnErr result (result ≡ Err PacketError.OutOfMemory) }

        // Calls without effect take no memory.
        ensures free { payload_has_no_effect (packetizer_of C.format self.old) mtu b.now ≡ true →
            IsOk result }
        ensures without_effect { payload_has_no_effect (packetizer_of C.format self.old) mtu b.now
            ≡ true → OnOk result ((into.new ≡ with_memory into.old into.new.memory)
            × (self.new ≡ self.old)) }
    {
        self.goes_as_planned(mtu, b);
        let mut made = Appending::from_buffer(self.alloc, into);
        match self.prepare(mtu, b, &mut made) {
            Ok(update) => {
                made.finish(into)?;
                self.commit(update);
                Ok(())
            }
            Err(e) => {
                made.give_up(into);
                Err(e)
            }
        }
    }

    /// How much memory the packets of a payload take, each behind `headroom` bytes, as
    /// [`packetize_to_memory`](PayloadPacketizer::packetize_to_memory) would place them now. Nothing
    /// changes. `OutOfMemory` is its only error.
    pub fn packets_size<'a>(
        &'a self,
        mtu: usize,
        b: &'a [u8],
        headroom: usize,
    ) -> Result<PacketsSize, PacketError>
        ensures size { IfOk result (λ it.
            IsSizeOf headroom (next_packets (packetizer_of C.format self.now) mtu b.now) it) }

        ensures memory { OnErr result (result ≡ Err PacketError.OutOfMemory) }

        // Calls without effect take no memory.
        ensures free { payload_has_no_effect (packetizer_of C.format self.now) mtu b.now ≡ true →
            IsOk result }
    {
        let mut made: Vec<PacketParts<'a>> = Vec::new(self.alloc);
        self.prepare(mtu, b, &mut made)?;
        Ok(size_of(&made, headroom))
    }

    /// Copies the packets of a payload to memory where they fit, and tells what the call changes.
    fn prepare_placed<'a>(
        &'a self,
        mtu: usize,
        b: &'a [u8],
        headroom: usize,
        to: &mut [u8],
        ends: &mut [usize],
    ) -> Result<(Placement, Update), PacketError>
        ensures packets { IfOk result (λ it. IsPlacement headroom
            (next_packets (packetizer_of C.format self.now) mtu b.now)
            to.old to.new ends.old ends.new it.0) }
        ensures after { IfOk result (λ it.
            view_with_update self.now it.1 ≡ view_after_call C.format self.now mtu b.now) }
        ensures is { IfOk result (λ it.
            IsPacketizerView C.format (view_with_update self.now it.1)) }

        ensures kept_memory { OnErr result ((to.new ≡ to.old) × (ends.new ≡ ends.old)) }
        ensures memory { OnErr result (result ≡ Err PacketError.OutOfMemory) }

        // Calls without effect take no memory.
        ensures free { payload_has_no_effect (packetizer_of C.format self.now) mtu b.now ≡ true →
            IsOk result }
    {
        let mut made: Vec<PacketParts<'a>> = Vec::new(self.alloc);
        let update = self.prepare(mtu, b, &mut made)?;
        Ok((place(&made, headroom, to, ends), update))
    }

    /// Copies the packets of a payload straight to memory of the caller, one behind the other, each
    /// behind `headroom` bytes that stay as they are, and writes to `ends` where each ends.
    ///
    /// They are those of [`packetize`](Packetizer::packetize), and what waits afterwards is what waits
    /// after it. Where they don't fit in `to`, or their ends in `ends`, nothing is done, and the answer
    /// says how much room they want. `OutOfMemory` is its only error, and leaves everything.
    pub fn packetize_to_memory(
        &mut self,
        mtu: usize,
        b: &[u8],
        headroom: usize,
        to: &mut [u8],
        ends: &mut [usize],
    ) -> Result<Placement, PacketError>
        ensures packets { IfOk result (λ it. IsPlacement headroom
            (next_packets (packetizer_of C.format self.old) mtu b.now)
            to.old to.new ends.old ends.new it) }
        ensures after { IfOk result (λ it. self.new
            ≡ if_placed it (view_after_call C.format self.old mtu b.now) self.old) }

        ensures kept { OnErr result (self.new ≡ self.old) }
        ensures kept_memory { OnErr result ((to.new ≡ to.old) × (ends.new ≡ ends.old)) }
        ensures memory { OnErr result (result ≡ Err PacketError.OutOfMemory) }

        // Calls without effect take no memory.
        ensures free { payload_has_no_effect (packetizer_of C.format self.old) mtu b.now ≡ true →
            IsOk result }
    {
        let (placement, update) = self.prepare_placed(mtu, b, headroom, to, ends)?;
        if let Placement::Placed(_) = placement {
            self.commit(update);
        }
        Ok(placement)
    }
}

/// A law of every packetizer: at most one set of each kind waits, its next decoding order number is
/// of two bytes, and where packets bear none that number is 0.
pub fn packetizer_states<C: PayloadFormat>(packetizer: &PayloadPacketizer<C>)
    ensures { IsPacketizerView C.format packetizer.now }
{
    let _ = &packetizer.codec;
}

impl<C: DonlFormat> PayloadPacketizer<C> {
    /// Turns decoding order numbers on, which begin at 0, or off (RFC 7798, 4.6; RFC 9328, 4.4).
    /// Sets that wait stay.
    pub fn with_donl(&mut self, has_donl: bool)
        ensures { self.new ≡ record self.old {
          codec = C.with_donl_of self.old.codec has_donl;
          next_don = 0;
        } }
    {
        self.codec = self.codec.with_donl(has_donl);
        self.next_don = 0;
    }

    /// Sets the largest packet size, in bytes, 4 or more: no packet of a later call is longer. It
    /// is 1200 at first.
    pub fn with_max_packet_size(&mut self, n: u16)
        requires { 4 ≤ n }
        ensures { self.new ≡ record self.old { max_packet_size = n } }
    {
        self.max_packet_size = n;
    }
}

impl<C: PayloadFormat> Packetizer for PayloadPacketizer<C> {
    ghost use Rattle.h26x_model.specs.Send.PacketizerState.{packetizer_meaning};
    ghost use Rattle.h26x_packetizer.specs.PacketizerView.{packetizer_state};

    ghost meaning = { λ packetizer_view. packetizer_meaning
        (packetizer_state (C.format packetizer_view.codec) packetizer_view) };

    /// The packets of a payload, in order, each within the limit of the call.
    ///
    /// Sets that wait from earlier calls go before the first unit that makes them due. Where no
    /// fragment has room for data a longer unit is dropped. A payload of skipped units alone, or
    /// any under the least `mtu`, has no packets, takes no memory and changes nothing.
    ///
    /// `OutOfMemory` is its only error, and leaves everything.
    fn packetize(&mut self, mtu: usize, b: &[u8]) -> Result<Vec<Vec<u8>>, PacketError>
        ensures packets { IfOk result (λ made.
            contents made.items ≡ next_packets (packetizer_of C.format self.old) mtu b.now) }
        ensures after { OnOk result (self.new ≡ view_after_call C.format self.old mtu b.now) }
        ensures planned { IfOk result (λ made.
            SendsAsPlanned C.format self.old mtu b.now (contents made.items) self.new) }
        ensures within { IfOk result (λ made.
            AreWithinLimit (limit_of C.format self.old mtu) (contents made.items)) }

        ensures kept { OnErr result (self.new ≡ self.old) }
        ensures memory { OnErr result (result ≡ Err PacketError.OutOfMemory) }

        // Calls without effect take no memory.
        ensures free { payload_has_no_effect (packetizer_of C.format self.old) mtu b.now ≡ true →
            IsOk result }
        ensures without_effect { payload_has_no_effect (packetizer_of C.format self.old) mtu b.now
            ≡ true → IfOk result (λ made. (made.items ≡ []) × (self.new ≡ self.old)) }
    {
        self.goes_as_planned(mtu, b);
        let mut made = Vec::new(self.alloc);
        let update = self.prepare(mtu, b, &mut made)?;
        self.commit(update);
        Ok(made)
    }

    /// The marker bit stands on the last packet of an access unit (RFC 6184, 5.1; RFC 7798, 4.1;
    /// RFC 9328, 4.1).
    fn is_marker(&mut self, data: &[u8], previous: Option<&[u8]>, last: bool) -> bool
        ensures is { result ≡ last }
        ensures kept { self.new ≡ self.old }
    {
        last
    }

    /// The marker bit marks no talkspurt.
    fn marks_talkspurt(&self) -> bool
        ensures { result ≡ false }
    {
        false
    }

    /// A receiver may ask for a lost packet again (RFC 4585, 6.2.1).
    fn nackable(&self) -> bool
        ensures { result ≡ true }
    {
        true
    }
}
