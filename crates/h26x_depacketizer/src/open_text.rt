//! The text of an access unit that is open, with the data of the open run in its memory.

ghost use Rattle.std.specs.Prelude.{◌≡◌, ◌⊎◌, ◌&&◌, ◌+◌, ◌≤◌, ◌++◌, ◌∷◌, [], length, take, drop, vec_capacity, Some, None, Ok, Err, OnOk, OnErr, IsTrue, ◌↔◌, is_some, true, false};
ghost use Rattle.std.specs.Option.{option_map};
ghost use Rattle.h26x_core.specs.ByteStream.{byte_stream};
ghost use Rattle.h26x_model.specs.Receive.Outcome.{is_too_long};
ghost use Rattle.h26x_model.specs.Receive.Received.{run_after};
ghost use Rattle.h26x_model.specs.Receive.RunLimit.{run_len};
ghost use Rattle.h26x_depacketizer.specs.DepacketizerView.{reading_of, AreChecked};
ghost use Rattle.h26x_depacketizer.specs.OpenText.{IsSameText, IsGivenBack, IsMostlyRun, run_if, text_with};
ghost use Rattle.h26x_depacketizer.specs.Run.{run_bytes, extra_with, IsWriteOutcome, IsTakeOutcome};

use crate::byte_stream::{PREFIX_SIZE, is_too_long, prefix_of};
use crate::give_back::give_back;
use crate::parts::Parts;
use crate::reader::PacketReader;
use crate::run::OpenRun;
use crate::take::take_parts;
use h26x_core::{ANNEXB_NALUSTART_CODE, CodecExtra, PacketError};
use std::alloc::Global;
use std::marker::Model;
use std::mem;

/// The text of an access unit that is open, with its open run.
///
/// The data of a run stand behind the text, where its unit will stand, so that they are copied once: a
/// start code and the header go before them. A unit that another packet completes meanwhile has the
/// run put aside.
#[derive(Debug, Drop)]
pub struct OpenText {
    bytes: Vec<u8>,
    /// Where the text ends, where a run is inside.
    at: usize,
    /// Where its data begin.
    from: usize,
    is_inside: bool,
    aside: OpenRun,
    /// Whether the memory was to be given back, and there was no smaller place to move to.
    lacks_place: bool,
}

impl Model for OpenText {
    ghost use Rattle.std.specs.Prelude.{◌≡◌, ◌≤◌, ◌+◌, true, None, length, vec_capacity};
    ghost use Rattle.h26x_depacketizer.specs.OpenText.{OpenTextView, open_text_view};

    ghost Value = { OpenTextView };

    ghost view = { λ a. open_text_view a.is_inside a.at a.from a.bytes.items a.aside
        (vec_capacity a.bytes) a.lacks_place };

    ghost invariant = { λ a. a.is_inside ≡ true →
        (a.at + 4 ≤ a.from) × (a.from ≤ length a.bytes.items) × (a.aside ≡ None) };
}

impl OpenText {
    /// An empty text without a run, in memory that was another's: what stands there goes.
    #[inline]
    pub fn new(mut memory: Vec<u8>) -> Self
        ensures text { result.text ≡ [] }
        ensures run { result.run ≡ None }
        ensures inside { result.inside ≡ None }
        ensures memory { result.memory ≡ vec_capacity memory }
    {
        let alloc = *memory.allocator();
        memory.clear();
        OpenText {
            bytes: memory,
            at: 0,
            from: 0,
            is_inside: false,
            aside: OpenRun::none(alloc),
            lacks_place: false,
        }
    }

    /// The text.
    pub fn text(&self) -> &[u8]
        ensures { result.now ≡ self.now.text }
    {
        &self.bytes[..self.len()]
    }

    /// The data of the open run, if there is one.
    pub fn run(&self) -> Option<&[u8]>
        ensures { option_map (λ run. run.now) result ≡ self.now.run }
    {
        if self.is_inside {
            Some(&self.bytes[self.from..])
        } else if self.aside.is_open() {
            Some(self.aside.bytes())
        } else {
            None
        }
    }

    /// How many bytes the text has.
    #[inline]
    pub fn len(&self) -> usize
        ensures { result ≡ length self.now.text }
    {
        if self.is_inside {
            self.at
        } else {
            self.bytes.len()
        }
    }

    /// How many bytes the open run holds; none where none is open.
    #[inline]
    pub fn run_len(&self) -> usize
        ensures { result ≡ run_len self.now.run }
    {
        if self.is_inside {
            self.bytes.len() - self.from
        } else {
            self.aside.len()
        }
    }

    /// The same, if a run is open.
    #[inline]
    pub(crate) fn open_run_len(&self) -> Option<usize>
        ensures { result ≡ option_map length self.now.run }
    {
        if self.is_inside {
            Some(self.bytes.len() - self.from)
        } else {
            self.aside.open_len()
        }
    }

    /// How many bytes the run holds that a packet meets, if it meets one.
    #[inline]
    pub fn met_run_len(&self, is_next: bool) -> Option<usize>
        ensures { result ≡ option_map length (run_if is_next self.now.run) }
    {
        if is_next { self.open_run_len() } else { None }
    }

    /// Whether a run is inside.
    #[inline]
    pub(crate) fn is_run_inside(&self) -> bool
        ensures { result ≡ is_some self.now.inside }
    {
        self.is_inside
    }

    /// Whether a run is inside whose unit has a header of so many bytes.
    #[inline]
    pub(crate) fn holds_run(&self, header_len: usize) -> bool
        ensures { IsTrue result ↔ (self.now.inside ≡ Some header_len) }
    {
        self.is_inside && self.from - self.at - PREFIX_SIZE == header_len
    }

    /// Begins a run anew with these data, inside, where its unit has this header. One that was open is
    /// given up.
    #[inline]
    pub(crate) fn begin_run(&mut self, head: &[u8], body: &[u8]) -> Result<(), PacketError>
        ensures outcome { (result ≡ Ok tt) ⊎ (result ≡ Err PacketError.OutOfMemory) }
        ensures text { OnOk result (self.new.text ≡ self.old.text) }
        ensures run { OnOk result (self.new.run ≡ Some body.now) }
        ensures kept { OnErr result (self.new ≡ self.old) }
    {
        let size = head.len().saturating_add(PREFIX_SIZE);
        let at = self.len();
        let given_up = self.bytes.len() - at;
        let more = size.saturating_add(body.len()).saturating_sub(given_up);
        self.bytes.reserve(more)?;
        self.bytes.truncate(at);
        self.bytes
            .extend_from_slice(&ANNEXB_NALUSTART_CODE)
            .unwrap();
        self.bytes.extend_from_slice(head).unwrap();
        self.from = self.bytes.len();
        self.bytes.extend_from_slice(body).unwrap();
        self.at = at;
        self.is_inside = true;
        self.aside.close();
        Ok(())
    }

    /// Adds these data to the run that is inside.
    #[inline]
    pub(crate) fn extend_run(&mut self, body: &[u8]) -> Result<(), PacketError>
        requires { is_some self.old.inside ≡ true }
        ensures outcome { (result ≡ Ok tt) ⊎ (result ≡ Err PacketError.OutOfMemory) }
        ensures text { OnOk result (self.new.text ≡ self.old.text) }
        ensures run { OnOk result (self.new.run ≡ Some (run_bytes self.old.run ++ body.now)) }
        ensures kept { OnErr result (self.new ≡ self.old) }
        ensures was_open { self.old.run ≡ Some (run_bytes self.old.run) }
    {
        self.bytes.reserve(body.len())?;
        self.bytes.extend_from_slice(body).unwrap();
        Ok(())
    }

    /// Ends the run that is inside with these data: its unit, which has this header, is text.
    #[inline]
    pub(crate) fn end_run(
        &mut self,
        is_avc: bool,
        head: &[u8],
        body: &[u8],
    ) -> Result<(), PacketError>
        requires { self.old.inside ≡ Some (length head.now) }
        ensures outcome { IsWriteOutcome (is_avc && is_too_long
            (head.now ++ (run_bytes self.old.run ++ body.now))) result }
        ensures text { OnOk result (self.new.text ≡ self.old.text
            ++ byte_stream is_avc ((head.now ++ (run_bytes self.old.run ++ body.now)) ∷ [])) }
        ensures run { OnOk result (self.new.run ≡ None) }
        ensures inside { OnOk result (self.new.inside ≡ None) }
        ensures kept { OnErr result (self.new ≡ self.old) }
        ensures was_open { self.old.run ≡ Some (run_bytes self.old.run) }
    {
        let behind = self.bytes.len() - self.at - PREFIX_SIZE;
        if is_avc && is_too_long(behind.saturating_add(body.len())) {
            return Err(PacketError::AvcUnitTooLong);
        }
        self.bytes.reserve(body.len())?;
        self.bytes.extend_from_slice(body).unwrap();
        let prefix = prefix_of(is_avc, behind + body.len());
        put_before(&mut self.bytes, self.at, &prefix, head);
        self.is_inside = false;
        Ok(())
    }

    /// Puts a run that is inside aside. It takes memory only where one is.
    #[inline]
    pub(crate) fn put_aside(&mut self) -> Result<(), PacketError>
        ensures outcome { (result ≡ Ok tt) ⊎ (result ≡ Err PacketError.OutOfMemory) }
        ensures same { OnOk result (IsSameText self.new self.old) }
        ensures inside { OnOk result (self.new.inside ≡ None) }
        ensures kept { OnErr result (self.new ≡ self.old) }
    {
        if self.is_inside {
            self.aside.begin(&self.bytes[self.from..])?;
            self.bytes.truncate(self.at);
            self.is_inside = false;
        }
        Ok(())
    }

    /// Takes the parts of a packet while no run is inside, as `take_packet` does.
    #[inline]
    pub(crate) fn take_aside<C: PacketReader>(
        &mut self,
        codec: C,
        is_avc: bool,
        packet: &[u8],
        parts: Parts<'_>,
        codec_extra: &mut CodecExtra,
    ) -> Result<(), PacketError>
        requires checked { AreChecked (C.format codec) (C.units codec) packet.now parts }
        requires aside { self.old.inside ≡ None }
        ensures outcome { IsTakeOutcome is_avc self.old.run
            (reading_of C.format C.units codec packet.now parts.entry) result }
        ensures text { OnOk result (self.new.text ≡ text_with is_avc self.old
            (reading_of C.format C.units codec packet.now parts.entry)) }
        ensures told { OnOk result (codec_extra.new ≡ extra_with (C.format codec) codec_extra.old
            self.old.run (reading_of C.format C.units codec packet.now parts.entry)) }
        ensures run { OnOk result (self.new.run
            ≡ run_after self.old.run (reading_of C.format C.units codec packet.now parts.entry)) }
        ensures inside { self.new.inside ≡ None }
        ensures kept { OnErr result (IsSameText self.new self.old) }
        ensures kept_extra { OnErr result (codec_extra.new ≡ codec_extra.old) }
    {
        let (run, bytes) = (&mut self.aside, &mut self.bytes);
        take_parts(codec, is_avc, packet, parts, run, bytes, codec_extra)
    }

    /// Gives up the open run. Its memory is kept for later ones.
    #[inline]
    pub fn close_run(&mut self)
        ensures text { self.new.text ≡ self.old.text }
        ensures run { self.new.run ≡ None }
        ensures inside { self.new.inside ≡ None }
    {
        let text_len = self.len();
        self.bytes.truncate(text_len);
        self.is_inside = false;
        self.aside.close();
    }

    /// Gives up the open run, and gives its memory back. The text moves only behind a run that was as
    /// long, or out of memory that is twice as large, and so never more than was taken. Where there is
    /// no smaller place it stays.
    pub fn give_up_run(&mut self)
        ensures text { self.new.text ≡ self.old.text }
        ensures run { self.new.run ≡ None }
        ensures inside { self.new.inside ≡ None }
        ensures memory { IsGivenBack self.new }
        ensures all { IsMostlyRun self.old → self.new.lacks_place ≡ false →
            self.new.memory ≤ length self.new.text }
    {
        let kept = self.len();
        let is_long = self.is_inside && self.bytes.len() - kept >= kept;
        self.bytes.truncate(kept);
        self.is_inside = false;
        self.aside.give_up();
        self.lacks_place = !give_back(&mut self.bytes, is_long);
    }

    /// Gives up the text, and gives its memory back; where the open run stands in it as much as that
    /// doesn't need, if there is a smaller place. The run stays open.
    pub fn give_up_text(&mut self)
        ensures text { self.new.text ≡ [] }
        ensures run { self.new.run ≡ self.old.run }
        ensures memory { IsGivenBack self.new }
        ensures all { self.old.inside ≡ None → self.new.memory ≡ 0 }
    {
        if self.is_inside {
            self.bytes.rotate_left(self.at);
            self.bytes.truncate(self.bytes.len() - self.at);
            self.from -= self.at;
            self.at = 0;
            self.lacks_place = !give_back(&mut self.bytes, false);
        } else {
            let alloc = *self.bytes.allocator();
            self.bytes = Vec::new(alloc);
            self.lacks_place = false;
        }
    }

    /// Gives back memory that is too large for what stands there, as behind a run that was closed, if
    /// there is a smaller place.
    pub fn give_back(&mut self)
        ensures same { IsSameText self.new self.old }
        ensures inside { self.new.inside ≡ self.old.inside }
        ensures memory { IsGivenBack self.new }
    {
        let bytes = &mut self.bytes;
        self.lacks_place = !give_back(bytes, false);
    }

    /// Moves a run that is not inside, or none, to where none is.
    #[inline]
    pub fn move_run(&mut self, to: &mut OpenRun)
        requires aside { self.old.inside ≡ None }
        requires none { to.old ≡ None }
        ensures moved { to.new ≡ self.old.run }
        ensures text { self.new.text ≡ self.old.text }
        ensures run { self.new.run ≡ None }
        ensures inside { self.new.inside ≡ None }
    {
        if self.aside.is_open() {
            mem::swap(&mut self.aside, to);
        }
    }

    /// The text alone: an open run goes.
    #[inline]
    pub fn into_text(mut self) -> Vec<u8>
        ensures text { result.items ≡ self.text }
        ensures memory { vec_capacity result ≡ self.memory }
    {
        let len = self.len();
        self.bytes.truncate(len);
        self.bytes
    }
}

/// Puts a prefix and a header in the place that was left for them from here on.
#[inline]
fn put_before(bytes: &mut [u8], at: usize, prefix: &[u8], head: &[u8])
    requires { at + (length prefix.now + length head.now) ≤ length bytes.old }
    ensures { bytes.new ≡ take at bytes.old ++ (prefix.now ++ (head.now
        ++ drop (at + (length prefix.now + length head.now)) bytes.old)) }
{
    let from = at + prefix.len();
    bytes[at..from].copy_from_slice(prefix);
    bytes[from..from + head.len()].copy_from_slice(head);
}
