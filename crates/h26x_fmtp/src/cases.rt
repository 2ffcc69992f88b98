//! Worked cases of the definitions, which the checker computes. Each is the contract of a function
//! without a result.

ghost use Rattle.std.specs.Prelude.{◌≡◌, None, Some, Ok, Err, true, false, codes, [], ◌∷◌};
ghost use Rattle.h26x_fmtp.specs.Kinds.{fault_in, is_tx_mode};
ghost use Rattle.h26x_fmtp.specs.RepairMaps.{repair_map_of};
ghost use Rattle.h26x_fmtp.specs.RtpMaps.{rtp_map_of};
ghost use Rattle.h26x_fmtp.specs.UnitTypes.{is_of, h264_sets, h265_vps, h265_sps, h265_pps, h265_sei, h266_dci, h266_vps, h266_sps, h266_pps, h266_sei};
ghost use Rattle.h26x_fmtp.specs.declared.error.Fault.TheVariants as fault;
ghost use Rattle.h26x_fmtp.specs.declared.kind.Kind.TheVariants as kind;
ghost use Rattle.h26x_fmtp.specs.declared.repair_map.RepairFormat.TheVariants as repair;
ghost use Rattle.h26x_fmtp.specs.declared.rtp_map.Encoding.TheVariants as encoding;
ghost use Rattle.h26x_fmtp.specs.declared.rtp_map.RtpMapError.TheVariants as map_error;

/// The lines of RFC 6184, section 8.2.1, RFC 7798, section 7.2.1, and RFC 9328, section 7.3.1, and
/// lines of other clock rates, names and payload types.
pub fn rtp_maps()
    ensures h264 { rtp_map_of (codes "98 H264/90000")
        ≡ Ok (record { payload_type = 98; encoding = encoding.H264 }) }
    ensures h265 { rtp_map_of (codes "98 H265/90000")
        ≡ Ok (record { payload_type = 98; encoding = encoding.H265 }) }
    ensures h266 { rtp_map_of (codes "98 H266/90000")
        ≡ Ok (record { payload_type = 98; encoding = encoding.H266 }) }
    ensures lower_case { rtp_map_of (codes "127 h264/90000")
        ≡ Ok (record { payload_type = 127; encoding = encoding.H264 }) }
    ensures clock { rtp_map_of (codes "98 H265/9000") ≡ Err map_error.ClockRate }
    ensures name { rtp_map_of (codes "98 rtx/90000") ≡ Err map_error.Encoding }
    ensures payload_type { rtp_map_of (codes "128 H264/90000") ≡ Err map_error.PayloadType }
{}

/// Lines of what goes beside video: of RFC 4588, section 8.7, those that Chromium offers, that of RFC
/// 8627, and such of other clock rates, names and payload types, as of audio and of a codec.
pub fn repair_maps()
    ensures rtx { repair_map_of (codes "97 rtx/90000")
        ≡ Ok (record { payload_type = 97; format = repair.Rtx }) }
    ensures red { repair_map_of (codes "123 red/90000")
        ≡ Ok (record { payload_type = 123; format = repair.Red }) }
    ensures ulpfec { repair_map_of (codes "125 ulpfec/90000")
        ≡ Ok (record { payload_type = 125; format = repair.Ulpfec }) }
    ensures flexfec { repair_map_of (codes "110 flexfec/90000")
        ≡ Ok (record { payload_type = 110; format = repair.Flexfec }) }
    ensures flexfec_03 { repair_map_of (codes "35 flexfec-03/90000")
        ≡ Ok (record { payload_type = 35; format = repair.Flexfec03 }) }
    ensures upper_case { repair_map_of (codes "0 RTX/90000")
        ≡ Ok (record { payload_type = 0; format = repair.Rtx }) }
    ensures audio { repair_map_of (codes "63 red/48000/2") ≡ Err map_error.ClockRate }
    ensures codec { repair_map_of (codes "96 H264/90000") ≡ Err map_error.Encoding }
    ensures other_draft { repair_map_of (codes "35 flexfec-04/90000") ≡ Err map_error.Encoding }
    ensures payload_type { repair_map_of (codes "128 rtx/90000") ≡ Err map_error.PayloadType }
    ensures no_number { repair_map_of (codes "rtx/90000") ≡ Err map_error.PayloadType }
{}

/// The types of units that parameters are for: SPS and PPS of H.264 are 7 and 8 (Rec. ITU-T H.264,
/// table 7-1); VPS, SPS, PPS and SEI of H.265 32, 33, 34, 39 and 40 (H.265, table 7-1); DCI, VPS, SPS,
/// PPS and SEI of H.266 13 to 16, 23 and 24 (H.266, table 5).
pub fn unit_types()
    ensures h264_sets { h264_sets ≡ record { encoding = encoding.H264; first = 7; last = 8 } }
    ensures h265_vps { h265_vps ≡ record { encoding = encoding.H265; first = 32; last = 32 } }
    ensures h265_sps { h265_sps ≡ record { encoding = encoding.H265; first = 33; last = 33 } }
    ensures h265_pps { h265_pps ≡ record { encoding = encoding.H265; first = 34; last = 34 } }
    ensures h265_sei { h265_sei ≡ record { encoding = encoding.H265; first = 39; last = 40 } }
    ensures h266_dci { h266_dci ≡ record { encoding = encoding.H266; first = 13; last = 13 } }
    ensures h266_vps { h266_vps ≡ record { encoding = encoding.H266; first = 14; last = 14 } }
    ensures h266_sps { h266_sps ≡ record { encoding = encoding.H266; first = 15; last = 15 } }
    ensures h266_pps { h266_pps ≡ record { encoding = encoding.H266; first = 16; last = 16 } }
    ensures h266_sei { h266_sei ≡ record { encoding = encoding.H266; first = 23; last = 24 } }
{}

/// Units at the edges of these types: those that FFmpeg and x265 write as a stream's first ones, and
/// one whose header isn't whole.
pub fn units()
    ensures h264_sps { is_of h264_sets (0x67 ∷ []) ≡ true }
    ensures h264_pps { is_of h264_sets (0x68 ∷ []) ≡ true }
    ensures h264_sei { is_of h264_sets (0x06 ∷ []) ≡ false }
    ensures h264_delimiter { is_of h264_sets (0x09 ∷ []) ≡ false }
    ensures h265_vps { is_of h265_vps (0x40 ∷ 0x01 ∷ []) ≡ true }
    ensures h265_sps { is_of h265_sps (0x42 ∷ 0x01 ∷ []) ≡ true }
    ensures h265_pps { is_of h265_pps (0x44 ∷ 0x01 ∷ []) ≡ true }
    ensures h265_prefix { is_of h265_sei (0x4e ∷ 0x01 ∷ []) ≡ true }
    ensures h265_suffix { is_of h265_sei (0x50 ∷ 0x01 ∷ []) ≡ true }
    ensures h265_short { is_of h265_vps (0x40 ∷ []) ≡ false }
    ensures h266_sps { is_of h266_sps (0x00 ∷ 0x79 ∷ []) ≡ true }
    ensures h266_pps { is_of h266_pps (0x00 ∷ 0x81 ∷ []) ≡ true }
{}

/// Modes of transmission (RFC 7798, section 7.1), in either case.
pub fn modes()
    ensures single { is_tx_mode (codes "SRST") ≡ true }
    ensures single_in_lower_case { is_tx_mode (codes "srst") ≡ true }
    ensures many { is_tx_mode (codes "MRST") ≡ true }
    ensures many_transports { is_tx_mode (codes "MRMT") ≡ true }
    ensures single_many { is_tx_mode (codes "SRMT") ≡ false }
{}

/// Numbers at the bounds of their kinds, and texts that are none.
pub fn numbers()
    ensures least { fault_in (kind.Number 1 16) (codes "1") ≡ None }
    ensures below { fault_in (kind.Number 1 16) (codes "0") ≡ Some fault.OutOfRange }
    ensures most { fault_in (kind.Number 1 16) (codes "16") ≡ None }
    ensures above { fault_in (kind.Number 1 16) (codes "17") ≡ Some fault.OutOfRange }
    ensures signed { fault_in (kind.Number 1 16) (codes "+1") ≡ Some fault.NotANumber }
    ensures too_big { fault_in (kind.Number 0 18446744073709551615) (codes "18446744073709551616")
        ≡ Some fault.OutOfRange }
    ensures digits { fault_in (kind.Hexadecimal 3) (codes "42E01f") ≡ None }
    ensures few_digits { fault_in (kind.Hexadecimal 3) (codes "42e0") ≡ Some fault.NotHexadecimal }
{}
