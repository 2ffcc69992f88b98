use super::*;
use std::test::Fail;

/// A codec, a stream, and what it has.
static STREAMS: [(Codec, &[u8], Counts); 3] = [
    // An SPS, a PPS, an access unit delimiter, a slice of an IDR picture and another one. The sets
    // go in one packet: 78 00 02 67 42 00 02 68 ce; 65 88 84; 41 9a 02 03.
    (
        Codec::H264,
        &[
            0, 0, 0, 1, 0x67, 0x42, 0, 0, 1, 0x68, 0xce, 0, 0, 1, 0x09, 0xf0, 0, 0, 1, 0x65, 0x88,
            0x84, 0, 0, 1, 0x41, 0x9a, 0x02, 0x03,
        ],
        Counts {
            units: 5,
            packets: 3,
            bytes: 16,
            key_units: 1,
            refused: 0,
        },
    ),
    // An H.265 unit of two bytes, an end of sequence, which is refused, and a slice of an IDR
    // picture.
    (
        Codec::H265,
        &[0, 0, 1, 0x48, 0x01, 0, 0, 1, 0x26, 0x01, 0xaf],
        Counts {
            units: 2,
            packets: 2,
            bytes: 5,
            key_units: 1,
            refused: 1,
        },
    ),
    // Zeros before a start code of H.266 are the unit's: 00 39 aa 00; 00 11 bb.
    (
        Codec::H266,
        &[0, 0, 1, 0, 0x39, 0xaa, 0, 0, 0, 0, 1, 0, 0x11, 0xbb],
        Counts {
            units: 2,
            packets: 2,
            bytes: 7,
            key_units: 1,
            refused: 0,
        },
    ),
];

#[test]
fn streams_and_their_counts(rt: HostRuntime) -> Result<(), Fail> {
    for (codec, stream, want) in &STREAMS {
        assert!(rt; count(rt.alloc(), *codec, stream)? == *want);
    }
    Ok(())
}
