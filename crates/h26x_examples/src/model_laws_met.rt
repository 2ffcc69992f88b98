//! What further laws of the model say of each codec, of lists that nothing is known of: each is called
//! once here. So are those of headers of aggregates.

ghost use Rattle.std.specs.Prelude.{◌≡◌, ◌≤◌, ◌<◌, ◌+◌, ◌++◌, ◌&&◌, ℕ, Bool, true, false, List, [], ◌∷◌, None, Some, Option, IsTrue, length, map, drop};
ghost use Rattle.std.specs.List.{AllByRecursion, flat_map, range_with_len};
ghost use Rattle.h26x_core.specs.ByteStream.{byte_stream};
ghost use Rattle.h26x_core.specs.Kind.{Skipped};
ghost use Rattle.h26x_model.specs.Payload.Facts.{AreCarried, CanSend, IsPlanned};
ghost use Rattle.h26x_model.specs.Payload.Format.{donl_len, fragment_header_len, has_s_bit, has_e_bit};
ghost use Rattle.h26x_model.specs.Payload.Reading.{Reading, Fragment};
ghost use Rattle.h26x_model.specs.Send.Calls.{Call, AreCalls, all_entries};
ghost use Rattle.h26x_model.specs.Send.Fragments.{fragment_data, ReadsFragments};
ghost use Rattle.h26x_model.specs.Send.Group.{Entry, Group, split, AreGroups};
ghost use Rattle.h26x_model.specs.Send.Packets.{fragment, fragment_count};
ghost use Rattle.h26x_model.specs.Send.PacketizerState.{PacketizerState, IsPacketizerState, state_plan, state_units, state_packets, packetizer_meaning};
ghost use Rattle.h26x_model.specs.Send.Plan.{Item, plan, waiting_entries, fits_one_packet, is_dropped, KeepsLast};
ghost use Rattle.h26x_model.specs.Receive.DepacketizerState.{DepacketizerState, Depacketization, depacketizer_meaning, units_brought, readings_units, run_after_readings, after_packets};
ghost use Rattle.h26x_model.specs.Receive.Received.{open_run, IsOpenRun, units_after, reading_units};
ghost use Rattle.h26x_model.specs.Receive.Run.{IsRunUnit};
ghost use Rattle.h26x_model.specs.Carry.Detection.{AreDetected};
ghost use Rattle.h265_payload.specs.H265.{h265};
ghost use Rattle.h265_payload.specs.LowestHeader.{with_lowest_header, with_lowest_headers};
ghost use Rattle.h266_payload.specs.AggregateHeader.{IsHeadedBySets};
ghost use Rattle.h26x_codec.specs.Codec.{codec_format};
ghost use Rattle.h26x_codec.specs.declared.codec.Codec.{Codec};

use h26x_codec::formats::formats_meet_the_facts;

/// Entries are groups and a rest, and are so in one way.
pub fn groups_of_entries()
    ensures are { (codec : Codec) (has_donl : Bool) (entries : List Entry) →
        let f = codec_format codec has_donl in AreGroups f entries (split f entries).groups
        (split f entries).rest }
    ensures one { (codec : Codec) (has_donl : Bool) (entries : List Entry) (a b : List Group)
        (x y : List Entry) → let f = codec_format codec has_donl in AreGroups f entries a x →
        AreGroups f entries b y → a ≡ b }
{
    h26x_model::laws::one_grouping();
}

/// A plan may be made call by call, by the sets that wait.
pub fn plans_of_calls()
    ensures { (codec : Codec) (has_donl : Bool) (limit : ℕ) (before entries : List Entry) →
        let f = codec_format codec has_donl in plan f (before ++ entries) ≡ plan f before ++ plan f
        (waiting_entries f limit before ++ entries) }
{
    h26x_model::laws::plans_call_by_call();
}

/// A unit isn't dropped where a fragment has room for data, and the last of a group whose sets fit one
/// packet isn't either.
pub fn units_that_stay()
    ensures room { (codec : Codec) (has_donl : Bool) (limit : ℕ) (unit : List ℕ) →
        let f = codec_format codec has_donl in fragment_header_len f + donl_len f < limit →
        is_dropped f limit unit ≡ false }
    ensures last { (codec : Codec) (has_donl : Bool) (entries : List Entry) →
        let f = codec_format codec has_donl in
        AllByRecursion (KeepsLast f) (split f entries).groups }
{
    formats_meet_the_facts();
    h26x_model::laws::only_sets_are_dropped();
}

/// The data of a unit's fragments, joined, are the unit behind its header; each fragment is read as
/// its part; and none is both the first and the last.
pub fn fragments_of_units()
    ensures joined { (codec : Codec) (has_donl : Bool) (n limit : ℕ) (unit : List ℕ) →
        let f = codec_format codec has_donl in fits_one_packet f limit unit ≡ false → is_dropped f
        limit unit ≡ false → f.header_len ≤ length unit → flat_map (fragment_data f limit unit)
        (range_with_len 0 (fragment_count f limit unit)) ≡ drop f.header_len unit }
    ensures read { (codec : Codec) (has_donl : Bool) (n limit : ℕ) (unit : List ℕ) →
        let f = codec_format codec has_donl in fits_one_packet f limit unit ≡ false → is_dropped f
        limit unit ≡ false → IsTrue (f.carries unit) → ReadsFragments f n limit unit }
    ensures apart { (codec : Codec) (has_donl : Bool) (n limit j : ℕ) (unit : List ℕ) →
        let f = codec_format codec has_donl in fits_one_packet f limit unit ≡ false → is_dropped f
        limit unit ≡ false → f.header_len ≤ length unit → j < fragment_count f limit unit →
        (has_s_bit f (fragment f n limit unit j) && has_e_bit f (fragment f n limit unit j)) ≡ false }
{
    formats_meet_the_facts();
    h26x_model::laws::fragments_by_place();
}

/// One run is open at most.
pub fn runs_that_are_open()
    ensures computed { (readings : List Reading) (run : List ℕ) → open_run readings ≡ Some run →
        IsOpenRun readings run }
    ensures one { (readings : List Reading) (a b : List ℕ) → IsOpenRun readings a →
        IsOpenRun readings b → Some a ≡ Some b }
{
    h26x_model::laws::one_open_run();
}

/// What is planned of calls whose units sent are carried can be sent, and the packet or the first
/// fragment of each key unit is detected.
pub fn plans_of_carried_units()
    ensures sent { (codec : Codec) (has_donl : Bool) (s : PacketizerState) (calls : List Call) →
        s.format ≡ codec_format codec has_donl → IsPacketizerState s → AreCalls calls →
        AreCarried s.format (state_units s (all_entries s.format calls)) →
        AllByRecursion (CanSend s.format) (state_plan s (all_entries s.format calls)) }
    ensures detected { (codec : Codec) (has_donl : Bool) (n : ℕ) (items : List Item) →
        let f = codec_format codec has_donl in
        AllByRecursion (IsPlanned f) items → AreDetected f n items }
{
    formats_meet_the_facts();
    h26x_model::laws::what_is_carried_can_be_sent();
    h26x_model::laws::key_units_are_detected();
}

/// Packets behind others bring what they would alone where the others leave no run open; and what a
/// fragment that ends brings there is the unit of the run that ends at its place.
pub fn packets_behind_others()
    ensures alone { (earlier readings : List Reading) → open_run earlier ≡ None →
        units_after earlier readings ≡ readings_units None readings }
    ensures last { (earlier : List Reading) (start : Bool) (head body : List ℕ)
        (don : Option ℕ) →
        IsRunUnit (earlier ++ Fragment start true head don body ∷ []) (length earlier)
        (reading_units (run_after_readings None earlier)
        (Fragment start true head don body)) }
{
    h26x_model::laws::received_from_a_run();
    h26x_model::laws::the_next_by_its_place();
}

/// Depacketizers of one format and meaning get the same units out of any packets, and for packetizers
/// of one format and meaning the same sets wait.
pub fn ends_of_one_meaning()
    ensures brought { (a b : DepacketizerState) (packets : List (List ℕ)) →
        a.format ≡ b.format → depacketizer_meaning a ≡ depacketizer_meaning b →
        units_brought a packets ≡ units_brought b packets }
    ensures waits { (a b : PacketizerState) → a.format ≡ b.format → a.format.kind [] ≡ Skipped →
        IsPacketizerState a → IsPacketizerState b → packetizer_meaning a ≡ packetizer_meaning b →
        a.waiting ≡ b.waiting }
{
    h26x_model::laws::equal_meanings_are_equal_states();
}

/// Where each aggregate of H.265 that calls send is given the header of its units, all units sent are
/// written, whatever run was open; and all else of an aggregate stays. Those of H.266 have the header
/// of their sets.
pub fn headers_of_aggregates()
    ensures written { (has_donl : Bool) (s : PacketizerState) (w : Depacketization)
        (calls : List Call) → s.format ≡ h265 has_donl → w.state.format ≡ h265 has_donl →
        IsPacketizerState s → AreCalls calls →
        AreCarried s.format (state_units s (all_entries s.format calls)) →
        (after_packets w (with_lowest_headers has_donl
        (state_packets s (all_entries s.format calls)))).out
        ≡ w.out ++ byte_stream w.state.is_avc (state_units s (all_entries s.format calls)) }
    ensures behind { (has_donl : Bool) (packet : List ℕ) →
        drop 2 (with_lowest_header has_donl packet) ≡ drop 2 packet }
    ensures of_h266 { (has_donl : Bool) (n : ℕ) (sets : List (List ℕ)) (unit : List ℕ) →
        IsHeadedBySets has_donl n sets unit }
{
    h265_payload::laws::meets_the_facts();
    h26x_model::laws::what_calls_send_is_carried();
    h265_payload::laws::lowest_headers_change_no_reading();
    h265_payload::laws::lowest_headers_are_of_the_units();
    h266_payload::laws::aggregates_have_the_header_of_their_sets();
}
