//! What a depacketizer shows of the packet that it accepted last.

ghost use Rattle.std.specs.Prelude.{◌≡◌, ℕ, Bool, true, List, Option, None, Err, IfOk, IfErr, IsOk, OnOk, OnErr};
ghost use Rattle.h26x_model.specs.Payload.Reading.{Refused};
ghost use Rattle.h26x_model.specs.Receive.Outcome.{IsReadingOutcome};
ghost use Rattle.h26x_depacketizer.specs.DepacketizerView.{IsReadAs};
ghost use Rattle.h26x_depacketizer.specs.Run.{ForEachRun};
ghost use Rattle.h26x_depacketizer.specs.Shows.{AreUnitsOf};
ghost use Rattle.h26x_depacketizer.specs.declared.parts.Parts.{Parts};

use crate::parts::Parts;
use crate::reader::PacketReader;
use h26x_core::PacketError;
use std::alloc::Global;
use std::fmt;

/// What a depacketizer shows of the packet that it accepted last: [`Nothing`], or a copy of it.
///
/// What a packet is shown by is got ready before its units are written, so that a refusal leaves
/// everything; showing it can't fail then.
pub trait Shows<C: PacketReader>: Sized + fmt::Debug + Drop + Eq {
    /// Memory that the next packet is shown by.
    type Spare: fmt::Debug + Drop;

    // What is shown before any packet, and of an accepted one.
    ghost fresh: { Self };

    ghost shown: { C → List ℕ → Self };

    // The units of an aggregate that is shown.
    ghost units: { Self → Option (List (List ℕ)) };

    // Whether that takes no memory.
    ghost is_free: { Bool };

    // A packet that was read as these parts can be shown by them.
    ghost is_shown_by: { C → List ℕ → Parts → Type 0 };

    // All that a packet is shown by is in this memory.
    ghost is_ready: { C → List ℕ → Parts → Self.Spare → Type 0 };

    /// What is shown before any packet.
    fn new(alloc: Global) -> Self
        ensures { result ≡ fresh };

    /// No memory.
    fn new_spare(alloc: Global) -> Self::Spare;

    /// The same again.
    fn clone(&self, alloc: Global) -> Result<Self, PacketError>
        ensures same { IfOk result (λ it. it ≡ self.now) }
        ensures memory { OnErr result (result ≡ Err PacketError.OutOfMemory) }
        ensures free { is_free ≡ true → IsOk result };

    /// Reads a packet, as its codec does.
    fn read<'a>(codec: C, packet: &'a [u8]) -> Result<Parts<'a>, PacketError>
        ensures accepted { IfOk result (λ parts. IsReadAs (C.format codec) (C.units codec)
            packet.now parts) }
        ensures shows { IfOk result (λ parts. is_shown_by codec packet.now parts) }
        ensures refused { IfErr result (λ e. (C.format codec).read packet.now ≡ Refused e) };

    /// Gets ready all that a packet is shown by. Where that takes memory, a packet that completes a
    /// unit too long for its length is refused before.
    fn prepare(
        codec: C,
        is_avc: bool,
        packet: &[u8],
        parts: Parts<'_>,
        run_len: Option<usize>,
        spare: &mut Self::Spare,
    ) -> Result<(), PacketError>
        requires read { IsReadAs (C.format codec) (C.units codec) packet.now parts }
        requires shows { is_shown_by codec packet.now parts }
        ensures ready { OnOk result (is_ready codec packet.now parts.entry spare.new) }
        ensures units { OnOk result (AreUnitsOf ((C.format codec).read packet.now)
            (units (shown codec packet.now))) }
        ensures refused { ForEachRun run_len (λ run. OnErr result (IsReadingOutcome is_avc run
            ((C.format codec).read packet.now) result)) }
        ensures free { is_free ≡ true → IsOk result };

    /// Shows a packet for which all is ready.
    fn show(&mut self, codec: C, packet: &[u8], parts: Parts<'_>, spare: &mut Self::Spare)
        requires { is_ready codec packet.now parts spare.old }
        ensures { self.new ≡ shown codec packet.now };
}

/// Shows no packet.
#[derive(Debug, Clone, Copy, PartialEq, Eq)]
pub struct Nothing;

impl<C: PacketReader> Shows<C> for Nothing {
    type Spare = Nothing;

    ghost fresh = { record {} };

    ghost shown = { λ codec packet. record {} };

    ghost units = { λ it. None };

    ghost is_free = { true };

    ghost is_shown_by = { λ codec packet parts. Unit {0} };

    ghost is_ready = { λ codec packet parts spare. Unit {0} };

    fn new(alloc: Global) -> Self {
        Nothing
    }

    fn new_spare(alloc: Global) -> Self::Spare {
        Nothing
    }

    fn clone(&self, alloc: Global) -> Result<Self, PacketError> {
        Ok(Nothing)
    }

    #[inline(always)]
    fn read<'a>(codec: C, packet: &'a [u8]) -> Result<Parts<'a>, PacketError> {
        codec.read(packet)
    }

    #[inline(always)]
    fn prepare(
        _codec: C,
        _is_avc: bool,
        _packet: &[u8],
        _parts: Parts<'_>,
        _run_len: Option<usize>,
        _spare: &mut Self::Spare,
    ) -> Result<(), PacketError> {
        Ok(())
    }

    #[inline(always)]
    fn show(&mut self, _codec: C, _packet: &[u8], _parts: Parts<'_>, _spare: &mut Self::Spare) {}
}
