use super::*;
use crate::outcomes::wrote;
use std::test::Fail;

#[test]
fn a_frame_comes_back(rt: HostRuntime) {
    let want = [0, 0, 0, 1, 0x00, 0x39, 0xdd];
    assert!(rt; wrote(send_and_receive(rt.alloc(), &[0x00, 0x39, 0xdd]), &want));
}

#[test]
fn a_frame_is_sent_with_numbers(rt: HostRuntime) {
    assert!(rt; send_frame(rt.alloc(), Some(1), &[0x26, 0x01, 0xaf]).is_ok());
}

#[test]
fn a_frame_is_carried(rt: HostRuntime) -> Result<(), Fail> {
    let frame = [0x65, 0x01].to_vec(rt.alloc())?;
    assert!(rt; wrote(carry_frame(rt.alloc(), frame), &[0, 0, 0, 1, 0x65, 0x01]));
    Ok(())
}

/// A packet of an unknown type, and a unit.
fn unknown_and_unit(alloc: Global) -> Result<Vec<Vec<u8>>, PacketError> {
    let mut packets = Vec::new(alloc);
    packets.push([0xff, 0x00, 0x00].to_vec(alloc)?)?;
    packets.push([0x65, 0x01].to_vec(alloc)?)?;
    Ok(packets)
}

#[test]
fn a_packet_of_an_unknown_type_is_refused(rt: HostRuntime) -> Result<(), Fail> {
    assert!(rt; count_refused(rt.alloc(), unknown_and_unit(rt.alloc())?)? == 1);
    Ok(())
}

/// A frame of one unit.
fn frame_of_one_unit(alloc: Global) -> Result<Vec<Vec<u8>>, PacketError> {
    let mut frames = Vec::new(alloc);
    frames.push([0, 0, 1, 0x65, 0x01].to_vec(alloc)?)?;
    Ok(frames)
}

/// Whether the same packets were sent both times.
fn are_the_same_twice(repeated: &Repeated) -> bool {
    repeated.first.as_slice() == repeated.second.as_slice()
}

#[test]
fn what_was_written_is_sent_again(rt: HostRuntime) -> Result<(), Fail> {
    let frames = frame_of_one_unit(rt.alloc())?;
    assert!(rt; are_the_same_twice(&send_twice(rt.alloc(), frames)?));
    Ok(())
}
