//! Worked cases of the definitions, which the checker computes. Each is the contract of a function
//! without a result.

ghost use Rattle.std.specs.Prelude.{◌≡◌, true, false, None, Some, Ok, Err, [], ◌∷◌};
ghost use Rattle.h26x_access_units.specs.declared.config.AccessUnitConfig.{AccessUnitConfig};
ghost use Rattle.h26x_model.specs.Receive.DepacketizerState.{DepacketizerState};
ghost use Rattle.h26x_packetizer.specs.Buffer.{packets_from};
ghost use Rattle.h26x_rtp.specs.Datagram.{datagram_bytes};
ghost use Rattle.h26x_rtp_receiver.specs.Cases.{receiver_of_case};
ghost use Rattle.h26x_rtp_sender.specs.Cases.{unit_of_case, sent_of_case, media_of_case, rtx_of_case, sender_of_case, buffer_of_case, memory_of_case, sent_memory_of_case};
ghost use Rattle.h26x_rtp_sender.specs.History.{AreHeldBefore, last_within, has_place, held_of};
ghost use Rattle.h26x_rtp_sender.specs.InMemory.{are_in_memory, IsSendInMemory};
ghost use Rattle.h26x_rtp_sender.specs.Receiving.{IsReceiverOf, IsReceiverBy};
ghost use Rattle.h26x_rtp_sender.specs.Sending.{IsSend, nothing_sent, count_with, count_with_all, headed_from, with_headers, once_sent, packet_again, after_again};
ghost use Rattle.h26x_rtp_sender.specs.Sent.{numbered_packets, packet_headers};

use crate::error::RtpSendError;
use h26x_rtp::RtpWriteError;

/// Three packets whose numbers go round: only the last has the marker. None of no payloads.
pub fn packets_of_an_access_unit()
    ensures three { numbered_packets unit_of_case 65534 ((1 ∷ []) ∷ (2 ∷ []) ∷ (3 ∷ []) ∷ [])
        ≡ sent_of_case 65534 false (1 ∷ []) ∷ sent_of_case 65535 false (2 ∷ [])
        ∷ sent_of_case 0 true (3 ∷ []) ∷ [] }
    ensures one { numbered_packets unit_of_case 7 ((1 ∷ []) ∷ [])
        ≡ sent_of_case 7 true (1 ∷ []) ∷ [] }
    ensures none { numbered_packets unit_of_case 7 [] ≡ [] }
    ensures bytes { datagram_bytes (sent_of_case 0x102 true (0x41 ∷ 2 ∷ []))
        ≡ 0x80 ∷ 0xe0 ∷ 0x01 ∷ 0x02 ∷ 0x00 ∷ 0x00 ∷ 0x00 ∷ 0x09 ∷ 0x00 ∷ 0x00 ∷ 0x00 ∷ 0x01 ∷ 0x41
        ∷ 2 ∷ [] }
{}

/// Packets that are held by a bound of three bytes: all, the last two, the last one, and none, where
/// the last has more; those of no bytes have a place at the bound.
pub fn packets_that_are_held()
    ensures all { last_within 3 (sent_of_case 7 false (1 ∷ [])
        ∷ sent_of_case 8 true (2 ∷ 3 ∷ []) ∷ [])
        ≡ sent_of_case 7 false (1 ∷ []) ∷ sent_of_case 8 true (2 ∷ 3 ∷ []) ∷ [] }
    ensures last { last_within 3 (sent_of_case 7 false (1 ∷ 1 ∷ [])
        ∷ sent_of_case 8 false (2 ∷ 3 ∷ []) ∷ sent_of_case 9 true [] ∷ [])
        ≡ sent_of_case 8 false (2 ∷ 3 ∷ []) ∷ sent_of_case 9 true [] ∷ [] }
    ensures none { last_within 3 (sent_of_case 7 true (1 ∷ 2 ∷ 3 ∷ 4 ∷ []) ∷ []) ≡ [] }
    ensures empty { last_within 0 (sent_of_case 7 true [] ∷ [])
        ≡ sent_of_case 7 true [] ∷ [] }
    ensures room { has_place 5 3 0x7fff 2 ≡ true }
    ensures bytes { has_place 5 3 0 3 ≡ false }
    ensures count { has_place 5 0 0x8000 0 ≡ false }
    ensures found { held_of 0 (sent_of_case 65535 false (1 ∷ [])
        ∷ sent_of_case 0 true (2 ∷ []) ∷ []) ≡ Some (sent_of_case 0 true (2 ∷ [])) }
    ensures gone { held_of 65534 (sent_of_case 65535 false (1 ∷ [])
        ∷ sent_of_case 0 true (2 ∷ []) ∷ []) ≡ None }
{}

/// Headers in the headrooms of two packets, the first byte of each its own still.
pub fn headers_in_headrooms()
    ensures heads { headed_from 0 ((9 ∷ []) ∷ (8 ∷ []) ∷ []) ((1 ∷ 2 ∷ []) ∷ (3 ∷ 4 ∷ []) ∷ [])
        ≡ (1 ∷ 9 ∷ []) ∷ (3 ∷ 8 ∷ []) ∷ [] }
    ensures behind { headed_from 1 ((9 ∷ []) ∷ []) ((1 ∷ 2 ∷ []) ∷ (3 ∷ 4 ∷ []) ∷ [])
        ≡ (1 ∷ 2 ∷ []) ∷ (3 ∷ 9 ∷ []) ∷ [] }
    ensures unit { (with_headers (packet_headers unit_of_case 65535 buffer_of_case.packets)
        buffer_of_case).headrooms ≡ (0 ∷ 0x80 ∷ 0x60 ∷ 0xff ∷ 0xff ∷ 0x00 ∷ 0x00 ∷ 0x00 ∷ 0x09
        ∷ 0x00 ∷ 0x00 ∷ 0x00 ∷ 0x01 ∷ []) ∷ (7 ∷ 0x80 ∷ 0xe0 ∷ 0x00 ∷ 0x00 ∷ 0x00 ∷ 0x00 ∷ 0x00
        ∷ 0x09 ∷ 0x00 ∷ 0x00 ∷ 0x00 ∷ 0x01 ∷ []) ∷ [] }
{}

/// A sender once an access unit was sent, and once one of its packets went again: by RTX its own
/// number, timestamp and marker behind another header; without RTX as it was.
pub fn a_sender_after_its_calls()
    ensures sent { once_sent unit_of_case buffer_of_case.packets sender_of_case
        ≡ record sender_of_case {
          media = media_of_case 1;
          sent = record { packets = 2; bytes = 5 };
          history = record {
            bound = 5;
            packets = sent_of_case 65535 false (0x7c ∷ 0x85 ∷ 1 ∷ [])
                ∷ sent_of_case 0 true (0x41 ∷ 2 ∷ []) ∷ [];
          };
        } }
    ensures rtx { datagram_bytes (packet_again (Some (rtx_of_case 500))
        (sent_of_case 65535 true (0x41 ∷ 2 ∷ []))) ≡ 0x80 ∷ 0xe1 ∷ 0x01 ∷ 0xf4 ∷ 0x00 ∷ 0x00 ∷ 0x00
        ∷ 0x09 ∷ 0x00 ∷ 0x00 ∷ 0x00 ∷ 0x02 ∷ 0xff ∷ 0xff ∷ 0x41 ∷ 2 ∷ [] }
    ensures same { packet_again None (sent_of_case 7 true (1 ∷ []))
        ≡ sent_of_case 7 true (1 ∷ []) }
    ensures after { after_again (Some (rtx_of_case 65535)) (sent_of_case 7 true (0 ∷ 7 ∷ 1 ∷ []))
        sender_of_case ≡ record sender_of_case {
          rtx = Some (rtx_of_case 0);
          resent = record { packets = 1; bytes = 3 };
        } }
    ensures after_same { after_again None (sent_of_case 7 true (1 ∷ [])) sender_of_case
        ≡ record sender_of_case { sent = record { packets = 1; bytes = 1 } } }
    ensures counted { count_with_all ((1 ∷ 2 ∷ []) ∷ [] ∷ []) nothing_sent
        ≡ record { packets = 2; bytes = 2 } }
    ensures most { count_with 2 (record {
      packets = 0xffff_ffff_ffff_ffff;
      bytes = 0xffff_ffff_ffff_fffe;
    }) ≡ record { packets = 0xffff_ffff_ffff_ffff; bytes = 0xffff_ffff_ffff_ffff } }
{}

/// A call of `send` that sends two packets, one without room for headers of 12 bytes; what is held
/// then; and a receiver of the same settings.
pub fn calls_and_a_receiver()
    ensures sends { IsSend 9 None sender_of_case buffer_of_case (Ok 1)
        (once_sent unit_of_case buffer_of_case.packets sender_of_case)
        (with_headers (packet_headers unit_of_case 65535 buffer_of_case.packets)
        buffer_of_case) }
    ensures refuses { IsSend 9 None sender_of_case (record buffer_of_case { headroom = 11 })
        (Err (RtpSendError.Header (RtpWriteError.NoRoom 12))) sender_of_case
        (record buffer_of_case { headroom = 11 }) }
    ensures held { AreHeldBefore 1 5 (sent_of_case 65535 false (0x7c ∷ 0x85 ∷ 1 ∷ [])
        ∷ sent_of_case 0 true (0x41 ∷ 2 ∷ []) ∷ []) }
    ensures follows { (config : AccessUnitConfig) (state : DepacketizerState) →
        IsReceiverOf (receiver_of_case config state) unit_of_case }
    ensures by_rtx { (config : AccessUnitConfig) (state : DepacketizerState) →
        IsReceiverBy (receiver_of_case config state) (rtx_of_case 500) unit_of_case }
{}

/// Packets in memory, each behind a headroom of 13, with a byte behind them: where they may end, which
/// they are, and a call of `send_in_memory` that sends them, one without room for headers of 12 bytes.
pub fn packets_in_memory()
    ensures lie { are_in_memory 13 0 31 (16 ∷ 31 ∷ []) ≡ true }
    ensures none { are_in_memory 13 0 0 [] ≡ true }
    ensures without_headroom { are_in_memory 13 0 31 (16 ∷ 28 ∷ []) ≡ false }
    ensures past { are_in_memory 13 0 30 (16 ∷ 31 ∷ []) ≡ false }
    ensures back { are_in_memory 0 0 31 (16 ∷ 15 ∷ []) ≡ false }
    ensures which { packets_from 13 0 memory_of_case (16 ∷ 31 ∷ []) ≡ buffer_of_case.packets }
    ensures sends { IsSendInMemory 9 None sender_of_case 13 (16 ∷ 31 ∷ []) memory_of_case (Ok 1)
        (once_sent unit_of_case buffer_of_case.packets sender_of_case) sent_memory_of_case }
    ensures refuses { IsSendInMemory 9 None sender_of_case 11 (14 ∷ []) memory_of_case
        (Err (RtpSendError.Header (RtpWriteError.NoRoom 12))) sender_of_case memory_of_case }
{}
