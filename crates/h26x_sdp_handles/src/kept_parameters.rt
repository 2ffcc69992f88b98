//! Format parameters with the units that they have, read once.

ghost use Rattle.std.specs.Prelude.{◌≡◌, ◌<◌, Ok, MatchResult, map, length, slice_index_or};
ghost use Rattle.std.specs.List.{range_with_len};
ghost use Rattle.h26x_fmtp.specs.Reading.{read_of};
ghost use Rattle.h26x_fmtp.specs.ParametersViews.{Fails};
ghost use Rattle.h26x_fmtp.specs.Units.{sprop_units_at};
ghost use Rattle.h26x_sdp_handles.specs.KeptUnits.{kept_view};
ghost use Rattle.h26x_sdp_handles.specs.Sdp as spec;
ghost use Rattle.h26x_sdp_handles.specs.Sdp.{named_units};
ghost use Rattle.h26x_fmtp.specs.ParametersViews.{slice_view};
ghost use Rattle.h26x_sdp_handles.specs.ChangedParameters as changed;

use crate::changed_parameters::{is_one_part, with_value};
use crate::sdp_code::{
    ABSENT, NOT_A_VALUE, OTHER_KIND, Refused, UNKNOWN_NAME, code_of_fault, of_units, refused_with,
};
use crate::sdp_parameter::ListedParameter;
use h26x_codes::code::OUT_OF_MEMORY;
use h26x_fmtp::{Kind, ParametersError, UnitsError, row_of, trimmed};
use h26x_sdp::CodecParameters;
use std::alloc::Global;
use std::marker::Model;

/// The units of a parameter: none where it's absent or no units, or why they are none.
type Kept = Option<Result<Vec<Vec<u8>>, UnitsError>>;

/// Format parameters, and the units of each. What they have beside the parameters is bounded by the
/// parameters' texts.
#[derive(Drop)]
pub struct KeptParameters<P: ListedParameter> {
    parameters: CodecParameters<P>,
    units: Vec<Kept>,
}

impl<P: ListedParameter> Model for KeptParameters<P> {
    ghost use Rattle.std.specs.Prelude.{◌≡◌, map, length};
    ghost use Rattle.std.specs.List.{range_with_len};
    ghost use Rattle.h26x_fmtp.specs.Reading.{FormatParameters};
    ghost use Rattle.h26x_fmtp.specs.Units.{sprop_units_at};
    ghost use Rattle.h26x_sdp_handles.specs.KeptUnits.{kept_view};

    ghost Value = { FormatParameters };

    ghost view = { λ it. it.parameters };

    ghost invariant = { λ it. map kept_view it.units.items
        ≡ map (sprop_units_at P.rows it.parameters) (range_with_len 0 (length P.rows)) };
}

/// Whether a parameter is units.
fn is_units(kind: Kind) -> bool
    ensures { result ≡ spec.is_units kind }
{
    match kind {
        Kind::Units(_) => true,
        _ => false,
    }
}

/// The units of a parameter.
fn kept_of<P: ListedParameter>(
    alloc: Global,
    it: &CodecParameters<P>,
    parameter: P,
) -> Result<Kept, u32>
    ensures { spec.OkOrOutOfMemory result
        (λ kept. kept_view kept ≡ sprop_units_at P.rows it.now (P.place parameter)) }
{
    match it.units(alloc, parameter) {
        Ok(Some(units)) => Ok(Some(Ok(units))),
        Ok(None) => Ok(None),
        Err(UnitsError::OutOfMemory) => Err(OUT_OF_MEMORY),
        Err(error) => Ok(Some(Err(error))),
    }
}

/// The units of all.
fn all_units<P: ListedParameter>(alloc: Global, it: &CodecParameters<P>) -> Result<Vec<Kept>, u32>
    ensures { spec.OkOrOutOfMemory result
        (λ kept. map kept_view kept.items
        ≡ map (sprop_units_at P.rows it.now) (range_with_len 0 (length P.rows))) }
{
    let all = P::all();
    let mut kept = Vec::new(alloc);
    for parameter in all {
        let units = kept_of(alloc, it, *parameter)?;
        if kept.push(units).is_err() {
            return Err(OUT_OF_MEMORY);
        }
    }
    Ok(kept)
}

/// Those at a place.
fn kept_at(kept: &[Kept], place: usize) -> &Kept
    requires { place < length kept.now }
    ensures { result.now ≡ slice_index_or kept.now place result.now }
{
    &kept[place]
}

impl<P: ListedParameter> KeptParameters<P> {
    /// Parameters with their units.
    pub fn of(alloc: Global, parameters: CodecParameters<P>) -> Result<Self, u32>
        ensures { spec.IsOrOutOfMemory result (Ok parameters) }
    {
        let units = all_units(alloc, &parameters)?;
        Ok(KeptParameters { parameters, units })
    }

    /// Reads what stands behind the payload type in an `a=fmtp` line.
    pub fn read(alloc: Global, text: &[u8]) -> Result<Self, ParametersError>
        ensures { MatchResult result
            (λ it. read_of P.rows text.now ≡ Ok it)
            (λ error. Fails error (read_of P.rows text.now)) }
    {
        let parameters = CodecParameters::read(alloc, text)?;
        match KeptParameters::of(alloc, parameters) {
            Ok(it) => Ok(it),
            Err(_) => Err(ParametersError::OutOfMemory),
        }
    }

    /// The parameters.
    pub fn parameters(&self) -> &CodecParameters<P>
        ensures { result.now ≡ self.now }
    {
        &self.parameters
    }

    /// The same with this value at a place, or with none.
    fn with_value_at(&self, alloc: Global, place: usize, value: Option<&[u8]>) -> Result<Self, u32>
        requires { place < length P.rows }
        ensures { spec.IsOrOutOfMemory result
            (Ok (changed.with_value_at place (slice_view value.entry) self.now)) }
    {
        match with_value(alloc, self.parameters.parameters(), place, value) {
            Ok(it) => KeptParameters::of(alloc, CodecParameters::of_parameters(it)),
            Err(_) => Err(OUT_OF_MEMORY),
        }
    }

    /// The same with a value of the parameter with a name, without regard to case; white space at its
    /// ends is left out.
    pub fn with_named_value(&self, alloc: Global, name: &[u8], value: &[u8]) -> Result<Self, u32>
        ensures { spec.IsOrOutOfMemory result
            (changed.with_named_value P.rows self.now name.now value.now) }
    {
        let Some((place, kind)) = row_of(P::rows(), name) else {
            return Err(UNKNOWN_NAME);
        };
        let value = trimmed(value);
        if !is_one_part(value) {
            return Err(NOT_A_VALUE);
        }
        match kind.fault_in(value) {
            Some(fault) => Err(code_of_fault(fault)),
            None => self.with_value_at(alloc, place, Some(value)),
        }
    }

    /// The same without a value of the parameter with a name, without regard to case.
    pub fn without_named_value(&self, alloc: Global, name: &[u8]) -> Result<Self, u32>
        ensures { spec.IsOrOutOfMemory result
            (changed.without_named_value P.rows self.now name.now) }
    {
        match row_of(P::rows(), name) {
            Some((place, _)) => self.with_value_at(alloc, place, None),
            None => Err(UNKNOWN_NAME),
        }
    }

    /// The units of the parameter with a name, without regard to case.
    pub fn units(&self, name: &[u8]) -> Result<&[Vec<u8>], Refused>
        ensures { spec.SaysNamedUnits result (named_units P.rows self.now name.now) }
    {
        let Some((place, kind)) = row_of(P::rows(), name) else {
            return Err(refused_with(UNKNOWN_NAME));
        };
        if !is_units(kind) {
            return Err(refused_with(OTHER_KIND));
        }
        match kept_at(self.units.as_slice(), place) {
            Some(Ok(units)) => Ok(units.as_slice()),
            Some(Err(error)) => Err(of_units(*error)),
            None => Err(refused_with(ABSENT)),
        }
    }
}
