//! The packets of H.265 payloads, with either header on sets that share one (RFC 7798, 4.4.2).

ghost use Rattle.std.specs.Prelude.{◌≡◌, ◌∷◌, []};
ghost use Rattle.h26x_payload.specs.Sets.{sets_list};
ghost use Rattle.h265_payload.specs.LowestHeader.{lowest_high, lowest_low};

use crate::codec::{H265, H265Sending};
use crate::every::lowest_header_of;
use h26x_core::CodecExtra;
use h26x_cut::UnitSlices;
use h26x_packetizer::LowestHeaderFormat;
use h26x_payload::{DonlFormat, PayloadFormat, Sets, UnitKind};

/// The header of sets that share a packet, by themselves.
fn lowest_header(sets: Sets<'_>) -> [u8; 2]
    ensures { result ≡ lowest_high (sets_list sets.entry) ∷ lowest_low (sets_list sets.entry) ∷ [] }
{
    match sets.vps {
        Some(vps) => lowest_header_of(&[vps, sets.sps, sets.pps]),
        None => lowest_header_of(&[sets.sps, sets.pps]),
    }
}

impl PayloadFormat for H265Sending {
    ghost use Rattle.h265_payload.specs.Setting.{sending_format};
    ghost use Rattle.h265_payload.specs.SendingFacts.{fits_headed, headed_numbers};
    ghost use Rattle.h265_payload.specs.CodecFacts.{has_header, header_tells};
    ghost use Rattle.std.specs.Prelude.{false};

    ghost format = { sending_format };

    ghost fresh = { record { codec = record { has_donl = false }; lowest_header = false } };

    ghost has_dond = { λ it. it.codec.has_donl };

    fn new() -> Self {
        H265Sending {
            codec: H265::new(),
            lowest_header: false,
        }
    }

    fn header_len(self) -> usize {
        2
    }

    fn has_donl(self) -> bool {
        self.codec.has_donl()
    }

    fn least_mtu(self) -> usize {
        4
    }

    fn has_max_packet_size(self) -> bool {
        true
    }

    fn kind_of(self, unit: &[u8]) -> UnitKind {
        self.codec.kind_of(unit)
    }

    fn units_in(self, payload: &[u8]) -> UnitSlices<'_> {
        self.codec.units_in(payload)
    }

    fn sets_fit(self, limit: usize, sets: Sets<'_>) -> bool {
        self.codec.sets_fit(limit, sets)
    }

    fn has_dond(self) -> bool {
        self.codec.has_dond()
    }

    fn sets_header(self, sets: Sets<'_>, unit: &[u8]) -> [u8; 2] {
        if self.lowest_header {
            lowest_header(sets)
        } else {
            self.codec.sets_header(sets, unit)
        }
    }

    fn fragment_header(self, unit: &[u8], start: bool, end: bool) -> [u8; 3] {
        self.codec.fragment_header(unit, start, end)
    }

    fn is_key(self, unit: &[u8]) -> bool {
        self.codec.is_key(unit)
    }

    fn extra(self, key: bool) -> CodecExtra {
        self.codec.extra(key)
    }

    fn has_key(self, extra: CodecExtra) -> bool {
        self.codec.has_key(extra)
    }

    ghost fits = { λ it. fits_headed it.codec.has_donl it.lowest_header };

    ghost dons = { λ it. headed_numbers it.codec.has_donl it.lowest_header };

    ghost headed = { λ it unit is. has_header unit is };

    ghost keyed = { λ it head rest two. header_tells head rest two };
}

impl DonlFormat for H265Sending {
    ghost use Rattle.std.specs.Prelude.{refl};
    ghost use Rattle.h265_payload.specs.Setting.{sending_with_donl};

    ghost with_donl_of = { λ it has_donl. sending_with_donl has_donl it };

    fn with_donl(self, has_donl: bool) -> Self {
        H265Sending {
            codec: self.codec.with_donl(has_donl),
            lowest_header: self.lowest_header,
        }
    }

    ghost same_kind = { λ it has_donl unit. refl };
}

impl LowestHeaderFormat for H265Sending {
    ghost use Rattle.std.specs.Prelude.{refl};
    ghost use Rattle.h265_payload.specs.Setting.{sending_with_lowest_header};

    ghost with_lowest_header_of = { λ it lowest_header.
        sending_with_lowest_header lowest_header it };

    fn with_lowest_header(self, lowest_header: bool) -> Self {
        H265Sending {
            codec: self.codec,
            lowest_header,
        }
    }

    ghost kind_kept = { λ it lowest_header unit. refl };

    ghost donl_kept = { λ it lowest_header. refl };
}
