//! The format parameters of a codec, by the table of them that its RFC registers.

ghost use Rattle.std.specs.Prelude.{◌≡◌, ◌<◌, ℕ, List, Ok, IfOk, MatchResult, length, map, vec_len};
ghost use Rattle.h26x_fmtp.specs.Tables.{ParameterRow};
ghost use Rattle.h26x_fmtp.specs.TableViews.{row_view};
ghost use Rattle.h26x_fmtp.specs.Reading.{read_of, all_of, none_of, with_one, value_at, number_at, value_or_default, number_or_default};
ghost use Rattle.h26x_fmtp.specs.ParametersViews.{Fails, SaysValue, other_view, view};
ghost use Rattle.h26x_fmtp.specs.Written.{written};
ghost use Rattle.h26x_fmtp.specs.Units.{sprop_units_at};
ghost use Rattle.h26x_fmtp.specs.UnitsViews.{SaysUnitsIfGiven};

use h26x_fmtp::{
    FormatParameters, OtherParameter, ParameterRow, ParametersError, UnitsError, parameters,
    read_units,
};
use std::alloc::{AllocError, Global};
use std::marker::{Model, PhantomData};

/// A format parameter that the RFC of a codec's payload registers.
pub trait CodecParameter: Copy {
    ghost rows: { List ParameterRow };

    ghost place: { Self → ℕ };

    /// All of them, in the order in which they are written.
    fn rows() -> &'static [ParameterRow]
        ensures { map row_view result.now ≡ rows };

    /// The parameter's place among them, from 0.
    fn place(self) -> usize
        ensures { result ≡ place self };
}

/// The format parameters of a codec: what an `a=fmtp` line says behind the payload type.
#[derive(Debug, Drop)]
pub struct CodecParameters<P: CodecParameter> {
    parameters: FormatParameters,
    of: PhantomData<P>,
}

impl<P: CodecParameter> Model for CodecParameters<P> {
    ghost use Rattle.std.specs.Prelude.{◌≡◌, length, vec_len};
    ghost use Rattle.h26x_fmtp.specs.Reading as spec;
    ghost use Rattle.h26x_fmtp.specs.ParametersViews as values;

    ghost Value = { spec.FormatParameters };

    ghost view = { λ it. values.view it.parameters };

    ghost invariant = { λ it. length P.rows ≡ vec_len it.parameters.values };
}

impl<P: CodecParameter> CodecParameters<P> {
    /// Reads the value of an `a=fmtp` line.
    ///
    /// Names are read without regard to case, white space round `;` and `=` and blank parts are left
    /// out, and parameters that the RFC doesn't have are kept, in their order. What is refused first
    /// is told, with its place: a value that is none of its parameter, or a parameter that is given
    /// twice.
    pub fn read(alloc: Global, text: &[u8]) -> Result<Self, ParametersError>
        ensures { MatchResult result
            (λ it. read_of P.rows text.now ≡ Ok it)
            (λ error. Fails error (read_of P.rows text.now)) }
    {
        let parameters = parameters::read(alloc, P::rows(), text)?;
        Ok(CodecParameters {
            parameters,
            of: PhantomData,
        })
    }

    /// The parameters of these values, one for each of the table.
    pub fn of_parameters(parameters: FormatParameters) -> Self
        requires { vec_len parameters.values ≡ length P.rows }
        ensures { result ≡ view parameters }
    {
        CodecParameters {
            parameters,
            of: PhantomData,
        }
    }

    /// Their values, one for each of the table, and the others.
    pub fn parameters(&self) -> &FormatParameters
        ensures same { view result.now ≡ self.now }
        ensures long { vec_len result.now.values ≡ length P.rows }
    {
        &self.parameters
    }

    /// None of the parameters.
    pub fn none(alloc: Global) -> Result<Self, AllocError>
        ensures { IfOk result (λ it. it ≡ none_of (length P.rows)) }
    {
        let parameters = parameters::none_of(alloc, P::rows().len())?;
        Ok(CodecParameters {
            parameters,
            of: PhantomData,
        })
    }

    /// Gives a parameter a value.
    pub fn put(&mut self, parameter: P, value: Vec<u8>)
        requires { P.place parameter < length P.rows }
        ensures { self.new ≡ with_one (P.place parameter) value.items self.old }
    {
        parameters::put(&mut self.parameters.values, parameter.place(), value);
    }

    /// Writes the value of an `a=fmtp` line: the parameters in the RFC's order, and the others behind
    /// them. It is read as the same parameters.
    pub fn write(&self, alloc: Global) -> Result<Vec<u8>, AllocError>
        ensures { IfOk result (λ text. text.items ≡ written (all_of P.rows self.now)) }
    {
        parameters::write(alloc, P::rows(), &self.parameters)
    }

    /// The value of a parameter, as it came; `None` where it's absent.
    pub fn value(&self, parameter: P) -> Option<&[u8]>
        ensures { SaysValue result (value_at self.now.values (P.place parameter)) }
    {
        let value = self.parameters.values.get(parameter.place())?.as_ref()?;
        Some(value.as_slice())
    }

    /// The number of a parameter; `None` where it's absent, and for those that are no numbers.
    pub fn number(&self, parameter: P) -> Option<u64>
        ensures { result ≡ number_at P.rows self.now (P.place parameter) }
    {
        let row = P::rows().get(parameter.place())?;
        row.kind.number_of(self.value(parameter)?)
    }

    /// The value of a parameter, or where it's absent the one that the RFC gives for it; `None` where
    /// it gives none, as where the level says it or another parameter does.
    pub fn value_or_default(&self, parameter: P) -> Option<&[u8]>
        ensures { SaysValue result (value_or_default P.rows self.now (P.place parameter)) }
    {
        match self.value(parameter) {
            Some(value) => Some(value),
            None => P::rows().get(parameter.place())?.default,
        }
    }

    /// The number of a parameter, or where it's absent the one that the RFC gives for it; `None` where
    /// it gives none, and for those that are no numbers.
    pub fn number_or_default(&self, parameter: P) -> Option<u64>
        ensures { result ≡ number_or_default P.rows self.now (P.place parameter) }
    {
        let row = P::rows().get(parameter.place())?;
        row.kind.number_of(self.value_or_default(parameter)?)
    }

    /// The NAL units of a parameter, out of base64; `None` where it's absent, and for those that aren't
    /// units.
    ///
    /// What is refused first is told, with its place among the units: a text that is no base64 or
    /// has no byte, and where all are units, one that is of no type that the parameter is for, or has
    /// a start code inside.
    pub fn units(&self, alloc: Global, parameter: P) -> Result<Option<Vec<Vec<u8>>>, UnitsError>
        ensures { SaysUnitsIfGiven result (sprop_units_at P.rows self.now (P.place parameter)) }
    {
        let (Some(row), Some(value)) = (P::rows().get(parameter.place()), self.value(parameter))
        else {
            return Ok(None);
        };
        let Some(types) = row.kind.unit_types() else {
            return Ok(None);
        };
        let units = read_units(alloc, value)?;
        match types.fault_in(units.as_slice()) {
            Some(error) => Err(error),
            None => Ok(Some(units)),
        }
    }

    /// The parameters that the RFC doesn't have, in their order.
    pub fn others(&self) -> &[OtherParameter]
        ensures { map other_view result.now ≡ self.now.others }
    {
        self.parameters.others.as_slice()
    }
}
