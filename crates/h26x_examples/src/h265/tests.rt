use super::*;
use crate::outcomes::wrote;
use h265_payload::detect_h265_keyframe;
use std::test::Fail;

#[test]
fn keyframes_are_detected(rt: HostRuntime) {
    let detected = (
        detect_h265_keyframe(&[0x26, 0x01, 0xaf]),
        detect_h265_keyframe(&[0x02, 0x01, 0xaf]),
    );
    assert!(rt; detected == (true, false));
}

#[test]
fn a_frame_comes_back(rt: HostRuntime) {
    let mut packetizer = H265Packetizer::new(rt.alloc());
    let mut depacketizer = H265Depacketizer::new(rt.alloc());
    let mut out = Vec::new(rt.alloc());
    let frame = [0x26, 0x01, 0xaf];
    let sent = send_and_receive(&mut packetizer, &mut depacketizer, &frame, &mut out);
    let want = [0, 0, 0, 1, 0x26, 0x01, 0xaf];
    assert!(rt; (sent, out.as_slice()) == (Ok(()), want.as_slice()));
}

#[test]
fn a_frame_is_sent(rt: HostRuntime) {
    assert!(rt; send_frame(rt.alloc(), &[0x26, 0x01, 0xaf]).is_ok());
}

/// Whether the first of two packets has an SPS and a PPS of temporal id 1, and their header.
fn has_own_header(made: Result<Vec<Vec<u8>>, PacketError>) -> bool {
    let want = [0x60, 0x01, 0x00, 0x02, 0x42, 0x01, 0x00, 0x02, 0x44, 0x01];
    match made {
        Ok(packets) if packets.len() == 2 => packets[0].as_slice() == want.as_slice(),
        _ => false,
    }
}

/// An SPS and a PPS of temporal id 1 before a slice of 3 (RFC 7798, 4.4.2).
#[test]
fn sets_have_their_own_header(rt: HostRuntime) {
    let frame = [
        0, 0, 1, 0x42, 0x01, 0, 0, 1, 0x44, 0x01, 0, 0, 1, 0x02, 0x03, 0xaa,
    ];
    let made = has_own_header(packets_of_frame(rt.alloc(), &frame));
    let made_before = has_own_header(packets_made_before(rt.alloc(), &frame));
    assert!(rt; (made, made_before) == (true, true));
}

#[test]
fn a_paci_packet_is_packed(rt: HostRuntime) {
    let want = [0x64, 0x01, 0x26, 0x38, 0x11, 0x22, 0x33, 0xaa];
    assert!(rt; wrote(pack_paci(rt.alloc()), &want));
}

/// Whether a packet bears decoding order numbers, the packet, how many units it shows, and the
/// number of the one that it begins.
static SHOWN: [(bool, &[u8], usize, Option<u16>); 2] = [
    // A VPS, an SPS and a PPS.
    (
        false,
        &[
            0x60, 0x01, 0x00, 0x03, 0x40, 0x01, 0x0c, 0x00, 0x03, 0x42, 0x01, 0x01, 0x00, 0x03,
            0x44, 0x01, 0xc1,
        ],
        3,
        None,
    ),
    // A first fragment.
    (true, &[0x62, 0x01, 0x81, 0x00, 0x01, 0xaa], 0, Some(1)),
];

/// How many units a depacketizer shows behind this packet, and the number of the one that it begins.
fn shown_behind(
    depacketizer: &mut H265Depacketizer,
    out: &mut Vec<u8>,
    packet: &[u8],
) -> Result<(usize, Option<u16>), PacketError> {
    depacketizer.depacketize(packet, out, &mut CodecExtra::None)?;
    Ok((units_shown(depacketizer), number_shown(depacketizer)))
}

/// What is shown of a packet with decoding order numbers or without.
fn shown(
    alloc: Global,
    has_numbers: bool,
    packet: &[u8],
) -> Result<(usize, Option<u16>), PacketError> {
    let mut depacketizer = H265Depacketizer::new(alloc);
    depacketizer.with_donl(has_numbers);
    shown_behind(&mut depacketizer, &mut Vec::new(alloc), packet)
}

#[test]
fn units_and_numbers_are_shown(rt: HostRuntime) -> Result<(), Fail> {
    for (has_numbers, packet, units, number) in &SHOWN {
        assert!(rt; shown(rt.alloc(), *has_numbers, packet)? == (*units, *number));
    }
    Ok(())
}
