//! The codecs, with and without decoding order numbers.

use h26x_codec::Codec;

/// A codec, and whether its units bear decoding order numbers.
#[derive(Clone, Copy)]
pub struct Setting {
    /// The codec.
    pub codec: Codec,
    /// Whether units bear numbers; false for H.264.
    pub has_donl: bool,
}

/// Each setting.
pub const SETTINGS: [Setting; 5] = [
    Setting {
        codec: Codec::H264,
        has_donl: false,
    },
    Setting {
        codec: Codec::H265,
        has_donl: false,
    },
    Setting {
        codec: Codec::H265,
        has_donl: true,
    },
    Setting {
        codec: Codec::H266,
        has_donl: false,
    },
    Setting {
        codec: Codec::H266,
        has_donl: true,
    },
];

impl Setting {
    /// What a session description says, so that units bear numbers.
    pub fn max_don_diff(self) -> Option<u32> {
        if self.has_donl { Some(1) } else { None }
    }

    /// The header of a slice of a keyframe.
    pub fn key_header(self) -> &'static [u8] {
        match self.codec {
            Codec::H264 => &[0x65],
            Codec::H265 => &[0x26, 0x01],
            Codec::H266 => &[0x00, 0x39],
        }
    }

    /// The header of another slice.
    pub fn slice_header(self) -> &'static [u8] {
        match self.codec {
            Codec::H264 => &[0x61],
            Codec::H265 => &[0x02, 0x01],
            Codec::H266 => &[0x00, 0x01],
        }
    }

    /// The headers of the parameter sets that come before a keyframe.
    pub fn set_headers(self) -> &'static [&'static [u8]] {
        match self.codec {
            Codec::H264 => &[&[0x67], &[0x68]],
            Codec::H265 => &[&[0x40, 0x01], &[0x42, 0x01], &[0x44, 0x01]],
            Codec::H266 => &[&[0x00, 0x71], &[0x00, 0x79], &[0x00, 0x81]],
        }
    }
}
