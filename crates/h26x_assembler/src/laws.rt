//! Laws of the definitions, each the contract of a function without a result.

ghost use Rattle.std.specs.Prelude.{◌≡◌, ℕ, Bool, List, [], ◌∷◌};
ghost use Rattle.h26x_model.specs.Payload.Facts.{IsPayloadFormat};
ghost use Rattle.h26x_model.specs.Send.PacketizerState.{PacketizerState};
ghost use Rattle.h26x_model.specs.Receive.DepacketizerState.{Depacketization};
ghost use Rattle.h26x_assembler.specs.AccessUnit.{AccessUnitValue, AppendsUnits, Assembly, UnitSkipsInOrder};
ghost use Rattle.h26x_assembler.specs.AnyUnits.{GivesOutAnyBrought};
ghost use Rattle.h26x_assembler.specs.StampedCalls.{StampedCall, GivesOutThoseLeft, GivesOutThoseBrought, WholeOnesAreSent, AreGivenOut, AreUnitsWithin, AreStreamed, IsLeftWhole};
ghost use Rattle.h26x_assembler.specs.Network.{UnitsComeThrough, ComeNear};
ghost use Rattle.h26x_reorder.specs.ReorderBuffer.{OfWindow};
ghost use Rattle.h26x_reorder.specs.Rtp.{RtpBody};

use h26x_model::laws as model_laws;
use h26x_receiver::laws;

/// Through a network that loses, repeats and reorders packets, and a buffer: the units of the items
/// of which each packet came are written, in the order of sending, and nothing else.
pub fn units_come_through_a_network()
    ensures { (window most : ℕ) (w : Depacketization) →
        OfWindow window (IsPayloadFormat w.state.format → UnitsComeThrough window most w) }
{
    laws::those_that_came_are_written();
}

/// Places that a network brings, put in order, are near where all packets are taken: gaps follow from
/// the jumps, which with the window are at most 2^14.
pub fn places_that_come_are_near()
    ensures { (window : ℕ) (places : List ℕ) → ComeNear window places }
{}

/// Of packets of calls with timestamps, numbered on, that come in order, some of them missing: the
/// access units that an assembler gives out, with what is open at the end, are what those packets
/// leave of the calls.
pub fn access_units_are_those_left()
    ensures { (most limit : ℕ) (w : Assembly) → GivesOutThoseLeft most limit w }
{
    model_laws::nothing_is_damaged();
    model_laws::packetizers_go_on();
}

/// What came of an access unit stays at its front: a packet that is taken puts the units behind it that
/// it completes.
pub fn packets_append_units()
    ensures { (most : ℕ) (s : Assembly) (p : ℕ × RtpBody) → AppendsUnits most s p }
{}

/// A number that came in order and bears nothing of the stream changes only what is expected next.
pub fn skipping_in_order_changes_only_the_number()
    ensures { (s : Assembly) → UnitSkipsInOrder s }
{}

/// Access units that are no longer than the limit are given out as they are.
pub fn access_units_within_the_limit_stay()
    ensures { (limit : ℕ) (given left : List AccessUnitValue) → AreGivenOut limit given left →
        AreUnitsWithin limit left → given ≡ left }
{}

/// What is told to be whole of what packets leave of calls is what was sent: its timestamp, its text
/// byte for byte, and what is told of it.
pub fn whole_access_units_are_those_sent()
    ensures { (most : ℕ) (s : PacketizerState) (avc : Bool) (calls : List StampedCall) →
        IsPayloadFormat s.format → AreStreamed s calls → WholeOnesAreSent most s avc calls }
{
    model_laws::nothing_is_damaged();
    model_laws::packetizers_go_on();
    model_laws::depacketizers_go_on();
    model_laws::what_calls_send_is_carried();
}

/// Through a network that loses, repeats and reorders packets, and a buffer: the access units that a
/// assembler gives out, with what is open at the end, are what the packets that came leave of the
/// calls.
pub fn access_units_come_through_a_network()
    ensures { (window most limit : ℕ) (w : Assembly) →
        OfWindow window (GivesOutThoseBrought window most limit w) }
{
    model_laws::nothing_is_damaged();
    model_laws::packetizers_go_on();
}

/// Whoever sent the packets, and whatever they are, of access units the last packet of which bears the
/// marker: what is given out, with what is open at the end, is that part of what all of them would
/// bring of which each packet was taken, and that a run may hold.
pub fn any_access_units_come_through_a_network()
    ensures { (window most limit : ℕ) (w : Assembly) →
        OfWindow window (GivesOutAnyBrought window most limit w) }
{
    model_laws::what_came_is_written();
}

/// An access unit each packet of which came, and the packet before them, is given out as it was sent
/// and told to be whole, where its packets together are no longer than the limit on the open run.
pub fn access_units_that_came_are_whole()
    ensures { (most : ℕ) (s : PacketizerState) (avc : Bool) (c : StampedCall) (mask : List Bool) →
        IsPayloadFormat s.format → AreStreamed s (c ∷ []) → IsLeftWhole most s avc c mask }
{
    model_laws::nothing_is_damaged();
    model_laws::depacketizers_go_on();
    model_laws::what_calls_send_is_carried();
    model_laws::runs_grow_by_their_packets();
}
