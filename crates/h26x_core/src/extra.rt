//! What a depacketizer tells beside the bytes that it writes.

/// What is told of H.264 units (RFC 6184). A keyframe is an IDR picture, of units of type 5.
#[derive(Debug, Clone, Copy, Default, PartialEq, Eq)]
pub struct H264CodecExtra {
    /// Whether a unit of a keyframe is among them.
    pub is_keyframe: bool,
}

/// What is told of H.265 units (RFC 7798). A keyframe is an IRAP picture, of units of types 16 to
/// 21.
#[derive(Debug, Clone, Copy, Default, PartialEq, Eq)]
pub struct H265CodecExtra {
    /// Whether a unit of a keyframe is among them.
    pub is_keyframe: bool,
}

/// What is told of H.266 units (RFC 9328). A keyframe is an IDR or CRA picture, of units of types 7
/// to 9.
#[derive(Debug, Clone, Copy, Default, PartialEq, Eq)]
pub struct H266CodecExtra {
    /// Whether a unit of a keyframe is among them.
    pub is_keyframe: bool,
}

/// What a depacketizer tells of the units that it has written: the codec, and whether a keyframe
/// is among them.
#[derive(Debug, Clone, Copy, Default, PartialEq, Eq)]
pub enum CodecExtra {
    /// No unit was written.
    #[default]
    None,
    /// Units of H.264 (RFC 6184).
    H264(H264CodecExtra),
    /// Units of H.265 (RFC 7798).
    H265(H265CodecExtra),
    /// Units of H.266 (RFC 9328).
    H266(H266CodecExtra),
}
