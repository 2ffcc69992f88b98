//! Parameters of which one has another value.

ghost use Rattle.std.specs.Prelude.{◌≡◌, ◌<◌, false, IfOk, map, vec_len, slice_set};
ghost use Rattle.h26x_fmtp.specs.ParametersViews.{view, value_view, slice_view, values_view, other_view, others_view};
ghost use Rattle.h26x_fmtp.specs.Written as spec;
ghost use Rattle.h26x_sdp_handles.specs.ChangedParameters.{with_value_at};

use h26x_fmtp::{FormatParameters, OtherParameter};
use std::alloc::{AllocError, Global};

/// Whether a text would be read as one value: no `;` stands outside braces, and no brace is left open.
pub fn is_one_part(text: &[u8]) -> bool
    ensures { result ≡ spec.is_one_part false text.now }
{
    let mut inside = false;
    for byte in text {
        match *byte {
            b';' if !inside => return false,
            b'{' => inside = true,
            b'}' => inside = false,
            _ => {}
        }
    }
    !inside
}

/// A copy of a value, if it's given.
fn copy_of(alloc: Global, value: Option<&[u8]>) -> Result<Option<Vec<u8>>, AllocError>
    ensures { IfOk result (λ it. value_view it ≡ slice_view value.entry) }
{
    match value {
        Some(value) => Ok(Some(Vec::from_slice(alloc, value)?)),
        None => Ok(None),
    }
}

/// The bytes of a value, if it's given.
fn bytes_of(value: &Option<Vec<u8>>) -> Option<&[u8]>
    ensures { slice_view result ≡ value_view value.now }
{
    match value {
        Some(value) => Some(value.as_slice()),
        None => None,
    }
}

/// A copy of values.
fn copy_of_values(
    alloc: Global,
    values: &[Option<Vec<u8>>],
) -> Result<Vec<Option<Vec<u8>>>, AllocError>
    ensures { IfOk result (λ it. values_view it ≡ map value_view values.now) }
{
    let mut copies = Vec::new(alloc);
    for value in values {
        copies.push(copy_of(alloc, bytes_of(value))?)?;
    }
    Ok(copies)
}

/// A copy of what a table doesn't have.
fn copy_of_other(alloc: Global, other: &OtherParameter) -> Result<OtherParameter, AllocError>
    ensures { IfOk result (λ it. other_view it ≡ other_view other.now) }
{
    let name = Vec::from_slice(alloc, other.name.as_slice())?;
    let value = Vec::from_slice(alloc, other.value.as_slice())?;
    Ok(OtherParameter { name, value })
}

/// A copy of those that a table doesn't have.
fn copy_of_others(
    alloc: Global,
    others: &[OtherParameter],
) -> Result<Vec<OtherParameter>, AllocError>
    ensures { IfOk result (λ it. others_view it ≡ map other_view others.now) }
{
    let mut copies = Vec::new(alloc);
    for other in others {
        copies.push(copy_of_other(alloc, other)?)?;
    }
    Ok(copies)
}

/// Puts a value, or none, in its place.
fn put(values: &mut Vec<Option<Vec<u8>>>, place: usize, value: Option<Vec<u8>>)
    requires { place < vec_len values.old }
    ensures put { values_view values.new
        ≡ slice_set (values_view values.old) place (value_view value) }
    ensures long { vec_len values.new ≡ vec_len values.old }
{
    values[place] = value;
}

/// A copy of parameters, with this value at a place, or with none.
pub fn with_value(
    alloc: Global,
    it: &FormatParameters,
    place: usize,
    value: Option<&[u8]>,
) -> Result<FormatParameters, AllocError>
    requires { place < vec_len it.now.values }
    ensures changed { IfOk result (λ copy. view copy
        ≡ with_value_at place (slice_view value.entry) (view it.now)) }
    ensures long { IfOk result (λ copy. vec_len copy.values ≡ vec_len it.now.values) }
{
    let mut values = copy_of_values(alloc, it.values.as_slice())?;
    let others = copy_of_others(alloc, it.others.as_slice())?;
    put(&mut values, place, copy_of(alloc, value)?);
    Ok(FormatParameters { values, others })
}
