//! Parameters by a table of what each of them is.

ghost use Rattle.std.specs.Prelude.{◌≡◌, ◌+◌, ◌<◌, ◌++◌, ◌∷◌, ◌^◌, [], IfOk, OnOk, OnErr, length, map, vec_len, slice_set, slice_index_or};
ghost use Rattle.h26x_fmtp.specs.Reading as spec;
ghost use Rattle.h26x_fmtp.specs.ParametersViews.{view, value_view, values_view, others_view, Gives, GivesInPlace};
ghost use Rattle.h26x_fmtp.specs.PairViews.{pair_view};
ghost use Rattle.h26x_fmtp.specs.TableViews.{row_view};
ghost use Rattle.h26x_fmtp.specs.Written.{written};
ghost use Rattle.h26x_fmtp.specs.Parameters.{with_given};

use crate::error::{Fault, ParametersError};
use crate::pairs::{Pair, closes, pairs_of, push_pair};
use crate::table::{ParameterRow, row_of};
use std::alloc::{AllocError, Global};

/// A parameter that a format doesn't have.
#[derive(Debug, Drop)]
pub struct OtherParameter {
    /// Its name, as it came.
    pub name: Vec<u8>,
    /// Its value.
    pub value: Vec<u8>,
}

/// The values of a table's parameters, and the parameters that it doesn't have, in their order.
#[derive(Debug, Drop)]
pub struct FormatParameters {
    pub values: Vec<Option<Vec<u8>>>,
    pub others: Vec<OtherParameter>,
}

/// No parameters, of a table of so many rows.
pub fn none_of(alloc: Global, rows: usize) -> Result<FormatParameters, AllocError>
    ensures none { IfOk result (λ it. view it ≡ spec.none_of rows) }
    ensures long { IfOk result (λ it. vec_len it.values ≡ rows) }
{
    let mut values = Vec::with_capacity(alloc, rows)?;
    while values.len() < rows {
        values.push(None)?;
    }
    Ok(FormatParameters {
        values,
        others: Vec::new(alloc),
    })
}

/// Puts a value in its place.
pub fn put(values: &mut Vec<Option<Vec<u8>>>, place: usize, value: Vec<u8>)
    requires { place < vec_len values.old }
    ensures { values_view values.new ≡ slice_set (values_view values.old) place (Some value.items) }
{
    values[place] = Some(value);
}

/// Takes a parameter that the table doesn't have.
fn push_other(
    alloc: Global,
    others: &mut Vec<OtherParameter>,
    pair: Pair<'_>,
) -> Result<(), AllocError>
    ensures ok { OnOk result (others_view others.new
        ≡ others_view others.old ++ pair_view pair.entry ∷ []) }
    ensures err { OnErr result (others_view others.new ≡ others_view others.old) }
{
    let name = Vec::from_slice(alloc, pair.name)?;
    let value = Vec::from_slice(alloc, pair.value)?;
    others.push(OtherParameter { name, value })?;
    Ok(())
}

/// Takes the parameter at a place. Where it is refused, or memory lacks, nothing changes.
fn take(
    alloc: Global,
    rows: &[ParameterRow],
    it: &mut FormatParameters,
    place: usize,
    pair: Pair<'_>,
) -> Result<(), ParametersError>
    requires { length rows.now ≡ vec_len it.old.values }
    ensures taken { GivesInPlace result it.new
        (spec.with_parameter (map row_view rows.now) place (view it.old) (pair_view pair.entry)) }
    ensures long { vec_len it.new.values ≡ vec_len it.old.values }
{
    let Some((row, kind)) = row_of(rows, pair.name) else {
        push_other(alloc, &mut it.others, pair)?;
        return Ok(());
    };
    if it.values[row].is_some() {
        return Err(ParametersError::Refused {
            place,
            fault: Fault::Twice,
        });
    }
    if let Some(fault) = kind.fault_in(pair.value) {
        return Err(ParametersError::Refused { place, fault });
    }
    let value = Vec::from_slice(alloc, pair.value)?;
    put(&mut it.values, row, value);
    Ok(())
}

/// The parameters of a text, by a table.
pub fn read(
    alloc: Global,
    rows: &[ParameterRow],
    text: &[u8],
) -> Result<FormatParameters, ParametersError>
    ensures read { Gives result (spec.read_of (map row_view rows.now) text.now) }
    ensures long { IfOk result (λ it. vec_len it.values ≡ length rows.now) }
{
    if !closes(text) {
        return Err(ParametersError::OpenBrace);
    }
    let mut it = none_of(alloc, rows.len())?;
    let mut place: usize = 0;
    for pair in pairs_of(text) {
        take(alloc, rows, &mut it, place, pair)?;
        place += 1;
    }
    Ok(it)
}

/// The row at a place.
fn row_at(rows: &[ParameterRow], place: usize) -> &ParameterRow
    requires { place < length rows.now }
    ensures { result.now ≡ slice_index_or rows.now place result.now }
{
    &rows[place]
}

/// Writes a row's value, if it's given.
fn push_value(
    text: &mut Vec<u8>,
    row: &ParameterRow,
    value: &Option<Vec<u8>>,
) -> Result<(), AllocError>
    ensures { OnOk result (text.new.items
        ≡ with_given text.old.items (row_view row.now) (value_view value.now)) }
{
    let Some(value) = value else {
        return Ok(());
    };
    let (name, value) = (row.name, value.as_slice());
    push_pair(text, Pair { name, value })
}

/// The text of parameters: those of the table in its order, and the others behind them.
pub fn write(
    alloc: Global,
    rows: &[ParameterRow],
    it: &FormatParameters,
) -> Result<Vec<u8>, AllocError>
    requires { length rows.now ≡ vec_len it.now.values }
    ensures { IfOk result (λ text. text.items
        ≡ written (spec.all_of (map row_view rows.now) (view it.now))) }
{
    let mut text = Vec::new(alloc);
    for place in 0..rows.len() {
        push_value(&mut text, row_at(rows, place), &it.values[place])?;
    }
    for other in &it.others {
        let (name, value) = (other.name.as_slice(), other.value.as_slice());
        push_pair(&mut text, Pair { name, value })?;
    }
    Ok(text)
}
