//! Format parameters of SDP, with their codec.

ghost use Rattle.std.specs.Prelude.{◌≡◌, ◌⊎◌, Ok, Err, Some, None, IfOk, map};
ghost use Rattle.std.specs.List.{slice_get};
ghost use Rattle.std.specs.Option.{option_map};
ghost use Rattle.h26x_answers.specs.Answers.{rules_in};
ghost use Rattle.h26x_fmtp.specs.TableViews.{row_view};
ghost use Rattle.h26x_fmtp.specs.Tables.{ParameterRow as Row};
ghost use Rattle.h26x_fmtp.specs.ParametersViews.{other_view, SaysValue};
ghost use Rattle.h26x_codes.specs.Codes as codes;
ghost use Rattle.h26x_sdp_handles.specs.SdpCodes.{no_answer};
ghost use Rattle.h26x_sdp_handles.specs.SdpCodes as code;
ghost use Rattle.h26x_sdp_handles.specs.Sdp as spec;
ghost use Rattle.h26x_sdp_handles.specs.ChangedParameters.{sdp_with_value, sdp_without_value};

use crate::kept_parameters::KeptParameters;
use crate::sdp_code::{
    ABSENT, NO_ANSWER, OTHER_KIND, Refused, UNKNOWN_NAME, of_parameters, of_stream,
};
use crate::sdp_parameter::{ListedParameter, parameter_of};
use h26x_answers::{AnswerConfig, FormatFault, answer_format, own_fault};
use h26x_codec::Codec;
use h26x_codes::code::{NOT_OF_THIS_CODEC, OUT_OF_MEMORY};
use h26x_fmtp::{Kind, OtherParameter, ParameterRow};
use h26x_sdp::{CodecParameter, CodecParameters, H264Parameter, H265Parameter, H266Parameter};
use h26x_stream_parameters::{h264_of_payload, h265_of_payload, h266_of_payload};
use std::alloc::{AllocError, Global};
use std::slice;

/// The format parameters of a codec.
#[derive(Drop)]
pub enum SdpEndpoint {
    H264(KeptParameters<H264Parameter>),
    H265(KeptParameters<H265Parameter>),
    H266(KeptParameters<H266Parameter>),
}

/// Whether a parameter is a number.
fn is_number(kind: Kind) -> bool
    ensures { result ≡ spec.is_number kind }
{
    match kind {
        Kind::Number { .. } | Kind::HexadecimalNumber { .. } => true,
        Kind::Hexadecimal { .. } | Kind::TxMode | Kind::Units(_) | Kind::Text => false,
    }
}

/// The value of the parameter with a name, or where it's absent what the RFC takes for it.
fn value_of<'a, P: ListedParameter>(
    it: &'a CodecParameters<P>,
    name: &[u8],
    or_default: bool,
) -> Result<&'a [u8], u32>
    ensures { spec.SaysNamedValue result
        (spec.named_value P.rows it.now name.now or_default) }
{
    let Some((parameter, _)) = parameter_of(name) else {
        return Err(UNKNOWN_NAME);
    };
    let value = if or_default {
        it.value_or_default(parameter)
    } else {
        it.value(parameter)
    };
    value.ok_or(ABSENT)
}

/// The number of the parameter with a name, or where it's absent that of what the RFC takes for it.
fn number_of<P: ListedParameter>(
    it: &CodecParameters<P>,
    name: &[u8],
    or_default: bool,
) -> Result<u64, u32>
    ensures { result ≡ spec.named_number P.rows it.now name.now or_default }
{
    let Some((parameter, kind)) = parameter_of(name) else {
        return Err(UNKNOWN_NAME);
    };
    if !is_number(kind) {
        return Err(OTHER_KIND);
    }
    let number = if or_default {
        it.number_or_default(parameter)
    } else {
        it.number(parameter)
    };
    number.ok_or(ABSENT)
}

/// The name of the row at a place.
fn name_at(rows: &'static [ParameterRow], place: usize) -> Option<&'static [u8]>
    ensures { SaysValue result (option_map (λ (row : Row). row.name)
        (slice_get (map row_view rows.now) place)) }
{
    match rows.get(place) {
        Some(row) => Some(row.name),
        None => None,
    }
}

/// The answer to an offered format by one of ours, or that there is none.
fn answer_of<P: ListedParameter>(
    alloc: Global,
    config: AnswerConfig,
    offered: &KeptParameters<P>,
    ours: &KeptParameters<P>,
) -> Result<KeptParameters<P>, u32>
    ensures { spec.IsOrOutOfMemory result (spec.answer_or_code
        (rules_in config P.rows P.roles P.terms P.multicast_terms P.known P.fault P.reorders P.usages)
        config offered.now ours.now) }
{
    match answer_format(
        alloc,
        config,
        offered.parameters(),
        slice::from_ref(ours.parameters()),
    ) {
        Ok(Some(answer)) => KeptParameters::of(alloc, answer),
        Ok(None) => Err(NO_ANSWER),
        Err(_) => Err(OUT_OF_MEMORY),
    }
}

impl SdpEndpoint {
    /// Reads what stands behind the payload type in an `a=fmtp` line.
    pub fn read(alloc: Global, codec: Codec, text: &[u8]) -> Result<Self, Refused>
        ensures { (result ≡ Err (code.refused_with codes.out_of_memory))
            ⊎ (result ≡ spec.sdp_read codec text.now) }
    {
        match codec {
            Codec::H264 => match KeptParameters::<H264Parameter>::read(alloc, text) {
                Ok(it) => Ok(SdpEndpoint::H264(it)),
                Err(error) => Err(of_parameters(error)),
            },
            Codec::H265 => match KeptParameters::<H265Parameter>::read(alloc, text) {
                Ok(it) => Ok(SdpEndpoint::H265(it)),
                Err(error) => Err(of_parameters(error)),
            },
            Codec::H266 => match KeptParameters::<H266Parameter>::read(alloc, text) {
                Ok(it) => Ok(SdpEndpoint::H266(it)),
                Err(error) => Err(of_parameters(error)),
            },
        }
    }

    /// What a sender says of its stream, out of the bytes that it begins with.
    #[tactic(auto, using(crate::proofs::ErrorLemmas::fails_stream_or))]
    pub fn of_payload(alloc: Global, codec: Codec, payload: &[u8]) -> Result<Self, u32>
        ensures { spec.OfPayloadUnits codec payload.now
            (λ units. spec.IsOrOutOfMemory result (spec.sdp_of_units codec units)) }
    {
        match codec {
            Codec::H264 => match h264_of_payload(alloc, payload) {
                Ok(it) => Ok(SdpEndpoint::H264(KeptParameters::of(alloc, it)?)),
                Err(error) => Err(of_stream(error)),
            },
            Codec::H265 => match h265_of_payload(alloc, payload) {
                Ok(it) => Ok(SdpEndpoint::H265(KeptParameters::of(alloc, it)?)),
                Err(error) => Err(of_stream(error)),
            },
            Codec::H266 => match h266_of_payload(alloc, payload) {
                Ok(it) => Ok(SdpEndpoint::H266(KeptParameters::of(alloc, it)?)),
                Err(error) => Err(of_stream(error)),
            },
        }
    }

    /// The answer to an offered format by one of ours; there is none of another codec.
    pub fn answer(
        &self,
        alloc: Global,
        config: AnswerConfig,
        ours: &SdpEndpoint,
    ) -> Result<Self, u32>
        ensures { spec.IsOrOutOfMemory result (spec.sdp_answer config self.now ours.now) }
    {
        match (self, ours) {
            (SdpEndpoint::H264(offered), SdpEndpoint::H264(ours)) => {
                Ok(SdpEndpoint::H264(answer_of(alloc, config, offered, ours)?))
            }
            (SdpEndpoint::H265(offered), SdpEndpoint::H265(ours)) => {
                Ok(SdpEndpoint::H265(answer_of(alloc, config, offered, ours)?))
            }
            (SdpEndpoint::H266(offered), SdpEndpoint::H266(ours)) => {
                Ok(SdpEndpoint::H266(answer_of(alloc, config, offered, ours)?))
            }
            _ => Err(NO_ANSWER),
        }
    }

    /// The first rule that they break as a format of one's own, if they break one.
    pub fn own_fault(&self, config: AnswerConfig) -> Option<FormatFault>
        ensures { result ≡ spec.sdp_own_fault config self.now }
    {
        match self {
            SdpEndpoint::H264(it) => own_fault(config, it.parameters()),
            SdpEndpoint::H265(it) => own_fault(config, it.parameters()),
            SdpEndpoint::H266(it) => own_fault(config, it.parameters()),
        }
    }

    /// The name of the parameter at a place of the table.
    pub fn name(&self, place: usize) -> Option<&'static [u8]>
        ensures { SaysValue result (spec.sdp_name self.now place) }
    {
        match self {
            SdpEndpoint::H264(_) => name_at(H264Parameter::rows(), place),
            SdpEndpoint::H265(_) => name_at(H265Parameter::rows(), place),
            SdpEndpoint::H266(_) => name_at(H266Parameter::rows(), place),
        }
    }

    /// The same with a value of the parameter with a name, without regard to case.
    pub fn with_value(&self, alloc: Global, name: &[u8], value: &[u8]) -> Result<Self, u32>
        ensures { spec.IsOrOutOfMemory result (sdp_with_value self.now name.now value.now) }
    {
        match self {
            SdpEndpoint::H264(it) => {
                Ok(SdpEndpoint::H264(it.with_named_value(alloc, name, value)?))
            }
            SdpEndpoint::H265(it) => {
                Ok(SdpEndpoint::H265(it.with_named_value(alloc, name, value)?))
            }
            SdpEndpoint::H266(it) => {
                Ok(SdpEndpoint::H266(it.with_named_value(alloc, name, value)?))
            }
        }
    }

    /// The same without a value of the parameter with a name, without regard to case.
    pub fn without_value(&self, alloc: Global, name: &[u8]) -> Result<Self, u32>
        ensures { spec.IsOrOutOfMemory result (sdp_without_value self.now name.now) }
    {
        match self {
            SdpEndpoint::H264(it) => { Ok(SdpEndpoint::H264(it.without_named_value(alloc, name)?)) }
            SdpEndpoint::H265(it) => { Ok(SdpEndpoint::H265(it.without_named_value(alloc, name)?)) }
            SdpEndpoint::H266(it) => { Ok(SdpEndpoint::H266(it.without_named_value(alloc, name)?)) }
        }
    }

    /// Their codec.
    pub fn codec(&self) -> Codec
        ensures { result ≡ spec.sdp_codec self.now }
    {
        match self {
            SdpEndpoint::H264(_) => Codec::H264,
            SdpEndpoint::H265(_) => Codec::H265,
            SdpEndpoint::H266(_) => Codec::H266,
        }
    }

    /// Writes them.
    pub fn write(&self, alloc: Global) -> Result<Vec<u8>, AllocError>
        ensures { IfOk result (λ text. text.items ≡ spec.sdp_text self.now) }
    {
        match self {
            SdpEndpoint::H264(it) => it.parameters().write(alloc),
            SdpEndpoint::H265(it) => it.parameters().write(alloc),
            SdpEndpoint::H266(it) => it.parameters().write(alloc),
        }
    }

    /// The value of the parameter with a name, without regard to case.
    pub fn value(&self, name: &[u8], or_default: bool) -> Result<&[u8], u32>
        ensures { spec.SaysNamedValue result (spec.sdp_value self.now name.now or_default) }
    {
        match self {
            SdpEndpoint::H264(it) => value_of(it.parameters(), name, or_default),
            SdpEndpoint::H265(it) => value_of(it.parameters(), name, or_default),
            SdpEndpoint::H266(it) => value_of(it.parameters(), name, or_default),
        }
    }

    /// The number of the parameter with a name, without regard to case.
    pub fn number(&self, name: &[u8], or_default: bool) -> Result<u64, u32>
        ensures { result ≡ spec.sdp_number self.now name.now or_default }
    {
        match self {
            SdpEndpoint::H264(it) => number_of(it.parameters(), name, or_default),
            SdpEndpoint::H265(it) => number_of(it.parameters(), name, or_default),
            SdpEndpoint::H266(it) => number_of(it.parameters(), name, or_default),
        }
    }

    /// The units of the parameter with a name, without regard to case.
    pub fn units(&self, name: &[u8]) -> Result<&[Vec<u8>], Refused>
        ensures { spec.SaysNamedUnits result (spec.sdp_units self.now name.now) }
    {
        match self {
            SdpEndpoint::H264(it) => it.units(name),
            SdpEndpoint::H265(it) => it.units(name),
            SdpEndpoint::H266(it) => it.units(name),
        }
    }

    /// The parameters that the RFC doesn't have, in their order.
    pub fn others(&self) -> &[OtherParameter]
        ensures { map other_view result.now ≡ spec.sdp_others self.now }
    {
        match self {
            SdpEndpoint::H264(it) => it.parameters().others(),
            SdpEndpoint::H265(it) => it.parameters().others(),
            SdpEndpoint::H266(it) => it.parameters().others(),
        }
    }

    /// What packetizers and receivers of H.265 and H.266 are configured for: `sprop-max-don-diff`, or 0
    /// where it's absent.
    pub fn max_don_diff(&self) -> Result<u32, u32>
        ensures { result ≡ spec.sdp_max_don_diff self.now }
    {
        match self {
            SdpEndpoint::H264(_) => Err(NOT_OF_THIS_CODEC),
            SdpEndpoint::H265(it) => it.parameters().max_don_diff().ok_or(ABSENT),
            SdpEndpoint::H266(it) => it.parameters().max_don_diff().ok_or(ABSENT),
        }
    }
}
