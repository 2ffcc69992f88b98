use super::answered;
use std::test::Fail;

/// Inputs whose last line has no end, or that are no text, and what is answered. Those that are text
/// and end in LF are rows of `h26x_rows`.
static INPUTS: [(&[u8], &[u8]); 12] = [
    (b"", b""),
    (b"key", b"key none\n"),
    (b"key\r", b"key none\n"),
    (b"key\nkey", b"key none\nkey none\n"),
    (b"codec h264\nkey\0", b"ok\nbad line\n"),
    (b"codec h265\nkey\0", b"ok\nbad line\n"),
    (b"codec h266\nkey\0", b"ok\nbad line\n"),
    (b"key \xff\n", b"bad line\n"),
    (b"\xc3\x28", b"bad line\n"),
    (b"pack \xff 65", b"bad line\n"),
    (b"size \xff", b"bad line\n"),
    (b"unpack \xff\xff", b"bad line\n"),
];

#[test]
fn inputs_and_answers(rt: HostRuntime) -> Result<(), Fail> {
    for (input, want) in &INPUTS {
        let output = answered(rt.alloc(), input)?;
        assert!(rt; output.as_slice() == *want);
    }
    Ok(())
}
