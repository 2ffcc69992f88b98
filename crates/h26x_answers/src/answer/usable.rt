//! What is usable of a format in the direction of who writes it, and what stands in place of the rest.

ghost use Rattle.std.specs.Prelude.{◌≡◌, IfOk, length, vec_len};
ghost use Rattle.h26x_answers.specs.Answers as answers;
ghost use Rattle.h26x_answers.specs.Directions as spec;
ghost use Rattle.h26x_fmtp.specs.ParametersViews.{value_view, slice_view, values_view, view};

use crate::answer::{AnswerConfig, CodecRules, Role, copy_of, copy_of_others};
use crate::direction::{Direction, Usage, is_usable};
use h26x_fmtp::FormatParameters;
use h26x_sdp::CodecParameters;
use std::alloc::{AllocError, Global};

/// What stands in place of a value that isn't usable.
fn unsent(reorders: bool, role: Role) -> Option<&'static [u8]>
    ensures { slice_view result ≡ spec.unsent reorders role }
{
    match role {
        Role::Reordering if reorders => Some(b"0"),
        _ => None,
    }
}

/// A value, or what stands in its place.
fn usable_value(
    direction: Direction,
    reorders: bool,
    role: Role,
    usage: Usage,
    value: &Option<Vec<u8>>,
) -> Option<&[u8]>
    ensures { slice_view result
        ≡ spec.usable_value direction reorders role usage (value_view value.now) }
{
    if !is_usable(direction, usage) {
        return unsent(reorders, role);
    }
    match value {
        Some(value) => Some(value.as_slice()),
        None => None,
    }
}

/// The values that are usable in a direction.
fn usable_values(
    alloc: Global,
    direction: Direction,
    reorders: bool,
    roles: &[Role],
    usages: &[Usage],
    it: &FormatParameters,
) -> Result<Vec<Option<Vec<u8>>>, AllocError>
    requires usages { length usages.now ≡ length roles.now }
    requires values { vec_len it.now.values ≡ length roles.now }
    ensures values { IfOk result (λ values. values_view values ≡ spec.usable_values direction reorders
        roles.now usages.now (view it.now).values) }
    ensures long { IfOk result (λ values. vec_len values ≡ length roles.now) }
{
    let mut values = Vec::new(alloc);
    for place in 0..roles.len() {
        let (role, usage) = (roles[place], usages[place]);
        let value = usable_value(direction, reorders, role, usage, &it.values[place]);
        values.push(copy_of(alloc, value)?)?;
    }
    Ok(values)
}

/// What is usable of a format in a direction, where units are sent in another order than decoded or
/// aren't.
fn usable_where<P: CodecRules>(
    alloc: Global,
    direction: Direction,
    reorders: bool,
    it: &CodecParameters<P>,
) -> Result<CodecParameters<P>, AllocError>
    ensures { IfOk result (λ usable. usable
        ≡ answers.usable_where P.roles P.usages direction reorders it.now) }
{
    let all = it.parameters();
    let parameters = FormatParameters {
        values: usable_values(alloc, direction, reorders, P::roles(), P::usages(), all)?,
        others: copy_of_others(alloc, all.others.as_slice())?,
    };
    Ok(CodecParameters::of_parameters(parameters))
}

/// What is usable of a format in the answer's direction; both ways all of it is.
pub(crate) fn usable<P: CodecRules>(
    alloc: Global,
    config: AnswerConfig,
    it: CodecParameters<P>,
) -> Result<CodecParameters<P>, AllocError>
    ensures { IfOk result (λ usable. usable ≡ answers.usable (answers.rules_in config P.rows P.roles
        P.terms P.multicast_terms P.known P.fault P.reorders P.usages) config.direction it) }
{
    match config.direction {
        Direction::SendRecv => Ok(it),
        direction => usable_where(alloc, direction, false, &it),
    }
}

/// A format as it's heard in one direction: what is usable of it, and in interleaved mode that an end
/// which sends no units sends none out of order.
pub(crate) fn heard<P: CodecRules>(
    alloc: Global,
    direction: Direction,
    it: &CodecParameters<P>,
) -> Result<CodecParameters<P>, AllocError>
    ensures { IfOk result (λ heard. heard
        ≡ answers.heard_where P.roles P.usages P.reorders direction it.now) }
{
    let usable = usable_where(alloc, direction, false, it)?;
    if P::reorders(&usable) {
        usable_where(alloc, direction, true, it)
    } else {
        Ok(usable)
    }
}
