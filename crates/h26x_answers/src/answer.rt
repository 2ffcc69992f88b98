//! Answers to offers of formats (RFC 3264, section 6; RFC 6184, section 8.2.2; RFC 7798, section 7.2.2;
//! RFC 9328, section 7.3.2).

pub(crate) mod by_level;
pub(crate) mod h264;
pub(crate) mod h265;
pub(crate) mod h266;
pub(crate) mod own_h264;
pub(crate) mod own_h265;
pub(crate) mod own_h266;
mod usable;

ghost use Rattle.std.specs.Prelude.{◌≡◌, Bool, List, Option, IfOk, length, map, vec_len};
ghost use Rattle.std.specs.Option.{option_map, option_or};
ghost use Rattle.h26x_answers.specs.Answers as spec;
ghost use Rattle.h26x_answers.specs.AnswersViews.{terms_view};
ghost use Rattle.h26x_fmtp.specs.Reading as reading;
ghost use Rattle.h26x_fmtp.specs.ParametersViews.{view, value_view, slice_view, values_view, other_view, others_view};
ghost use Rattle.h26x_fmtp.specs.TableViews.{row_view};

use crate::answer::usable::{heard, usable};
use crate::direction::{Direction, Usage};
use crate::fault::FormatFault;
use h26x_fmtp::{FormatParameters, Kind, OtherParameter, ParameterRow, same_name};
use h26x_sdp::{CodecParameter, CodecParameters};
use std::alloc::{AllocError, Global};
use std::marker::Model;

/// What a parameter is in an offer and its answer (RFC 6184, section 8.2.2, table 6; RFC 7798, section
/// 7.2.2, table 1; RFC 9328, section 7.3.2.3, figure 11).
#[derive(Debug, Clone, Copy, PartialEq, Eq)]
pub enum Role {
    /// Configuration of both directions: the answer has the offer's value, and ours says the same.
    Configuration,
    /// The same, which the terms of the codec compare: where another parameter says what it is if it's
    /// absent, and where not all peers look at it.
    Compared,
    /// The profile and level, or the level: the answer's depends on both.
    Level,
    /// The highest level that is received, where the answer's depends on both.
    HighestLevel,
    /// Whether each direction may have a level of its own: our own, where both ends allow it.
    Asymmetry,
    /// Of a stream whose units are sent in another order than decoded: our own, of such a stream alone.
    Reordering,
    /// Parameter sets: our own, where they are of the answer's level.
    Sets,
    /// Parameter sets of other levels: our own, where such a level is to be used.
    LevelSets,
    /// What an end receives or sends: our own.
    Own,
    /// The choice of an operation point: none.
    OperationPoint,
}

/// The rules by which formats of a codec are answered: what each parameter is, and what two formats
/// agree on.
pub trait CodecRules: CodecParameter {
    ghost use Rattle.h26x_answers.specs.declared.answer.Role.{Role};
    ghost use Rattle.h26x_answers.specs.declared.answer.AnswerRules.{AnswerRules};
    ghost use Rattle.h26x_answers.specs.declared.fault.FormatFault.{FormatFault};
    ghost use Rattle.h26x_answers.specs.declared.direction.Usage.{Usage};

    ghost roles: { List Role };

    ghost terms: { AnswerRules → reading.FormatParameters → reading.FormatParameters
        → Option spec.Terms };

    ghost multicast_terms: { AnswerRules → reading.FormatParameters → reading.FormatParameters
        → Option spec.Terms };

    ghost known: { AnswerRules → reading.FormatParameters → Bool };

    ghost fault: { AnswerRules → reading.FormatParameters → Option FormatFault };

    ghost reorders: { reading.FormatParameters → Bool };

    ghost usages: { List Usage };

    /// What each parameter is, in the order of the table.
    fn roles() -> &'static [Role]
        ensures roles { result.now ≡ roles }
        ensures long { length result.now ≡ length Self.rows };

    /// In which directions each parameter is usable, in the order of the table.
    fn usages() -> &'static [Usage]
        ensures usages { result.now ≡ usages }
        ensures long { length result.now ≡ length Self.rows };

    /// The terms of an offered format and one of ours, whose configuration is one; `None` where they
    /// have none.
    fn terms(
        alloc: Global,
        rules: AnswerRules,
        offered: &CodecParameters<Self>,
        own: &CodecParameters<Self>,
    ) -> Result<Option<Terms>, AllocError>
        ensures { IfOk result (λ it. option_map terms_view it ≡ terms rules offered.now own.now) };

    /// The same in multicast: at the offered level, and `None` where ours is below it.
    fn multicast_terms(
        alloc: Global,
        rules: AnswerRules,
        offered: &CodecParameters<Self>,
        own: &CodecParameters<Self>,
    ) -> Result<Option<Terms>, AllocError>
        ensures { IfOk result (λ it. option_map terms_view it
            ≡ multicast_terms rules offered.now own.now) };

    /// Whether a format's profile and level are those of a table.
    fn is_known(rules: AnswerRules, it: &CodecParameters<Self>) -> bool
        ensures { result ≡ known rules it.now };

    /// The first rule of its RFC that a format of one's own breaks, if it breaks one.
    fn fault(rules: AnswerRules, own: &CodecParameters<Self>) -> Option<FormatFault>
        ensures { result ≡ fault rules own.now };

    /// Whether a format's units may be sent in another order than decoded: `packetization-mode` 2 of
    /// H.264 (RFC 6184, section 6.4), and `sprop-max-don-diff` above 0 of H.265 and H.266 (RFC 7798,
    /// section 7.1; RFC 9328, section 7.2).
    fn reorders(it: &CodecParameters<Self>) -> bool
        ensures { result ≡ reorders it.now };
}

/// By which rules formats are read and compared.
#[derive(Debug, Clone, Copy, PartialEq, Eq, Default)]
pub enum AnswerRules {
    /// Those of the RFCs.
    #[default]
    Rfc,
    /// Those, but as WebRTC's peers do it. H.264 without `profile-level-id` is `42e01f`, and not
    /// `42000a` (libwebrtc, aiortc), so that a format without any parameter is that in
    /// `packetization-mode` 0; who decodes Baseline or High takes an offer of its constrained profile,
    /// `42e01f` or `640c1f`, and answers with that. Of H.265 `interop-constraints` and
    /// `profile-compatibility-indicator` aren't compared (libwebrtc).
    Webrtc,
}

/// How an answerer answers, and what it can do that no format says, and this payload layer can't.
#[derive(Debug, Clone, Copy, PartialEq, Eq, Default)]
pub struct AnswerConfig {
    /// Whether it takes formats whose units may be sent in another order than decoded: it reads STAP-B,
    /// MTAP and FU-B of H.264, and puts units in order by their decoding order numbers.
    pub any_order: bool,
    /// By which rules it reads and compares formats: those of the RFCs unless others are asked for.
    pub rules: AnswerRules,
    /// The direction of the answer, as its end writes it: both ways unless another is asked for.
    pub direction: Direction,
    /// Whether media go by multicast, where no answer changes the level: it keeps the offered one, and
    /// there is none where ours is below it. Otherwise by unicast.
    pub multicast: bool,
}

/// What two formats of one configuration agree on.
#[derive(Debug, Drop)]
pub struct Terms {
    /// The value of the level's parameter in the answer.
    pub level: Option<Vec<u8>>,
    /// That of the highest level's, where it depends on both ends.
    pub highest: Option<Vec<u8>>,
    /// Whether each direction has a level of its own.
    pub asymmetric: bool,
    /// Whether units are sent in another order than decoded.
    pub reorders: bool,
    /// Whether our own parameter sets are of the answer's level, and are looked at.
    pub sets: bool,
    /// The same of those of other levels.
    pub level_sets: bool,
}

/// Whether two numbers are there and the same.
pub(crate) fn same_number(a: Option<u64>, b: Option<u64>) -> bool
    ensures { result ≡ spec.same_number a b }
{
    match (a, b) {
        (Some(a), Some(b)) => a == b,
        _ => false,
    }
}

/// Whether a buffer holds what is needed, where both are told.
pub(crate) fn holds(need: Option<u64>, room: Option<u64>) -> bool
    ensures { result ≡ spec.holds need room }
{
    match (need, room) {
        (Some(need), Some(room)) => need <= room,
        _ => false,
    }
}

/// Whether two values of a kind are one.
fn same_value(kind: Kind, a: &[u8], b: &[u8]) -> bool
    ensures { result ≡ spec.same_value kind a.now b.now }
{
    match kind {
        Kind::Number { .. } | Kind::HexadecimalNumber { .. } => {
            same_number(kind.number_of(a), kind.number_of(b))
        }
        Kind::Hexadecimal { .. } | Kind::TxMode => same_name(a, b),
        Kind::Units(_) | Kind::Text => a == b,
    }
}

/// The same of values that may be absent.
pub(crate) fn same_if_given(kind: Kind, a: Option<&[u8]>, b: Option<&[u8]>) -> bool
    ensures { result ≡ spec.same_if_given kind (slice_view a.entry)
        (slice_view b.entry) }
{
    match (a, b) {
        (None, None) => true,
        (Some(a), Some(b)) => same_value(kind, a, b),
        _ => false,
    }
}

/// The bytes of a value, if it's given.
fn bytes_of(value: &Option<Vec<u8>>) -> Option<&[u8]>
    ensures { slice_view result ≡ value_view value.now }
{
    match value {
        Some(value) => Some(value.as_slice()),
        None => None,
    }
}

/// The bytes of a value, or the default of its row.
fn bytes_or_default<'a>(row: &'a ParameterRow, value: &'a Option<Vec<u8>>) -> Option<&'a [u8]>
    ensures { slice_view result
        ≡ option_or (value_view value.now) (row_view row.now).default }
{
    match value {
        Some(value) => Some(value.as_slice()),
        None => row.default,
    }
}

/// Whether a row of two formats is symmetric, if it has to be.
fn is_symmetric_at(
    role: Role,
    row: &ParameterRow,
    offered: &Option<Vec<u8>>,
    own: &Option<Vec<u8>>,
) -> bool
    ensures { result ≡ spec.is_symmetric_at role (row_view row.now) (value_view offered.now)
        (value_view own.now) }
{
    match role {
        Role::Configuration => same_if_given(
            row.kind,
            bytes_or_default(row, offered),
            bytes_or_default(row, own),
        ),
        _ => true,
    }
}

/// Whether the configuration of two formats is one.
pub(crate) fn are_symmetric(
    roles: &[Role],
    rows: &[ParameterRow],
    offered: &FormatParameters,
    own: &FormatParameters,
) -> bool
    requires rows { length rows.now ≡ length roles.now }
    requires offered { vec_len offered.now.values ≡ length roles.now }
    requires own { vec_len own.now.values ≡ length roles.now }
    ensures { result ≡ spec.are_symmetric roles.now (map row_view rows.now)
        (view offered.now).values (view own.now).values }
{
    for place in 0..roles.len() {
        let (o, u) = (&offered.values[place], &own.values[place]);
        if !is_symmetric_at(roles[place], &rows[place], o, u) {
            return false;
        }
    }
    true
}

/// A value, where it belongs into the answer.
pub(crate) fn only_if(belongs: bool, value: &Option<Vec<u8>>) -> Option<&[u8]>
    ensures { slice_view result ≡ spec.only_if belongs (value_view value.now) }
{
    if belongs { bytes_of(value) } else { None }
}

/// The value of a parameter in the answer, of the offer's and our own.
fn answered_value<'a>(
    role: Role,
    terms: &'a Terms,
    offered: &'a Option<Vec<u8>>,
    own: &'a Option<Vec<u8>>,
) -> Option<&'a [u8]>
    ensures { slice_view result ≡ spec.answered_value role (terms_view terms.now)
        (value_view offered.now) (value_view own.now) }
{
    match role {
        Role::Configuration | Role::Compared => bytes_of(offered),
        Role::Level => bytes_of(&terms.level),
        Role::HighestLevel => bytes_of(&terms.highest),
        Role::Asymmetry => only_if(terms.asymmetric, own),
        Role::Reordering => only_if(terms.reorders, own),
        Role::Sets => only_if(terms.sets, own),
        Role::LevelSets => only_if(terms.level_sets, own),
        Role::Own => bytes_of(own),
        Role::OperationPoint => None,
    }
}

/// A copy of a value, if it's given.
pub(crate) fn copy_of(alloc: Global, value: Option<&[u8]>) -> Result<Option<Vec<u8>>, AllocError>
    ensures { IfOk result (λ it. value_view it ≡ slice_view value.entry) }
{
    match value {
        Some(value) => Ok(Some(Vec::from_slice(alloc, value)?)),
        None => Ok(None),
    }
}

/// A copy of what a table doesn't have.
fn copy_of_other(alloc: Global, other: &OtherParameter) -> Result<OtherParameter, AllocError>
    ensures { IfOk result (λ it. other_view it ≡ other_view other.now) }
{
    let name = Vec::from_slice(alloc, other.name.as_slice())?;
    let value = Vec::from_slice(alloc, other.value.as_slice())?;
    Ok(OtherParameter { name, value })
}

/// A copy of those that a table doesn't have.
fn copy_of_others(
    alloc: Global,
    others: &[OtherParameter],
) -> Result<Vec<OtherParameter>, AllocError>
    ensures { IfOk result (λ it. others_view it ≡ map other_view others.now) }
{
    let mut copies = Vec::new(alloc);
    for other in others {
        copies.push(copy_of_other(alloc, other)?)?;
    }
    Ok(copies)
}

/// The values of the answer, on terms.
fn answered_values(
    alloc: Global,
    roles: &[Role],
    terms: &Terms,
    offered: &FormatParameters,
    own: &FormatParameters,
) -> Result<Vec<Option<Vec<u8>>>, AllocError>
    requires offered { vec_len offered.now.values ≡ length roles.now }
    requires own { vec_len own.now.values ≡ length roles.now }
    ensures values { IfOk result (λ it. values_view it ≡ spec.answered_values (terms_view terms.now)
        roles.now (view offered.now).values (view own.now).values) }
    ensures long { IfOk result (λ it. vec_len it ≡ length roles.now) }
{
    let mut values = Vec::new(alloc);
    for place in 0..roles.len() {
        let (o, u) = (&offered.values[place], &own.values[place]);
        values.push(copy_of(alloc, answered_value(roles[place], terms, o, u))?)?;
    }
    Ok(values)
}

/// A payload type and the parameters of its format.
#[derive(Debug, Drop)]
pub struct Format<P: CodecParameter> {
    /// The payload type.
    pub payload_type: u8,
    /// What an `a=fmtp` line says of it.
    pub parameters: CodecParameters<P>,
}

impl<P: CodecParameter> Model for Format<P> {
    ghost use Rattle.h26x_answers.specs.Answers as spec;

    ghost Value = { spec.MediaFormat };

    ghost view = { λ it. record { payload_type = it.payload_type; parameters = it.parameters } };
}

/// The parameters of the answer, on terms.
fn answered<P: CodecRules>(
    alloc: Global,
    rules: AnswerRules,
    offered: &CodecParameters<P>,
    own: &CodecParameters<P>,
    terms: &Terms,
) -> Result<CodecParameters<P>, AllocError>
    ensures { IfOk result (λ it. it ≡ spec.answered (spec.rules_of rules P.rows P.roles P.terms
        P.known P.fault P.reorders P.usages) offered.now own.now (terms_view terms.now)) }
{
    let (o, u) = (offered.parameters(), own.parameters());
    let parameters = FormatParameters {
        values: answered_values(alloc, P::roles(), terms, o, u)?,
        others: copy_of_others(alloc, u.others.as_slice())?,
    };
    Ok(CodecParameters::of_parameters(parameters))
}

/// The terms of two formats, if they are of one configuration.
fn common_terms<P: CodecRules>(
    alloc: Global,
    config: AnswerConfig,
    offered: &CodecParameters<P>,
    own: &CodecParameters<P>,
) -> Result<Option<Terms>, AllocError>
    ensures { IfOk result (λ it. option_map terms_view it ≡ spec.common_terms
        (spec.rules_in config P.rows P.roles P.terms P.multicast_terms P.known P.fault P.reorders
        P.usages) offered.now own.now) }
{
    if !are_symmetric(
        P::roles(),
        P::rows(),
        offered.parameters(),
        own.parameters(),
    ) {
        return Ok(None);
    }
    if config.multicast {
        P::multicast_terms(alloc, config.rules, offered, own)
    } else {
        P::terms(alloc, config.rules, offered, own)
    }
}

/// The answer to an offered format by one of ours.
fn answer_by<P: CodecRules>(
    alloc: Global,
    config: AnswerConfig,
    offered: &CodecParameters<P>,
    own: &CodecParameters<P>,
) -> Result<Option<CodecParameters<P>>, AllocError>
    ensures { IfOk result (λ it. it ≡ spec.answer_by (spec.rules_in config P.rows P.roles P.terms
        P.multicast_terms P.known P.fault P.reorders P.usages) offered.now own.now) }
{
    match common_terms(alloc, config, offered, own)? {
        Some(terms) => Ok(Some(answered(alloc, config.rules, offered, own, &terms)?)),
        None => Ok(None),
    }
}

/// The first rule that a format of one's own breaks, if it breaks one: of its RFC, or that its units
/// are sent in the order in which they're decoded, unless the caller takes any. Such a format gives no
/// answer.
pub fn own_fault<P: CodecRules>(
    config: AnswerConfig,
    own: &CodecParameters<P>,
) -> Option<FormatFault>
    ensures { result ≡ spec.own_fault (spec.rules_of config.rules P.rows P.roles P.terms P.known P.fault
        P.reorders P.usages) config own.now }
{
    match P::fault(config.rules, own) {
        Some(fault) => Some(fault),
        None if config.any_order || !P::reorders(own) => None,
        None => Some(FormatFault::OutOfOrder),
    }
}

/// The answer to an offered format of a profile and a level that a table has, in an order of units that
/// the caller takes.
fn known_answer<P: CodecRules>(
    alloc: Global,
    config: AnswerConfig,
    offered: &CodecParameters<P>,
    own: &CodecParameters<P>,
) -> Result<Option<CodecParameters<P>>, AllocError>
    ensures { IfOk result (λ it. it ≡ spec.known_answer (spec.rules_in config P.rows P.roles
        P.terms P.multicast_terms P.known P.fault P.reorders P.usages) config offered.now own.now) }
{
    let is_ordered = config.any_order || !P::reorders(offered);
    if !P::is_known(config.rules, offered) || !is_ordered {
        return Ok(None);
    }
    answer_by(alloc, config, offered, own)
}

/// The same of what is heard of both in their directions.
fn heard_answer<P: CodecRules>(
    alloc: Global,
    config: AnswerConfig,
    offered: &CodecParameters<P>,
    own: &CodecParameters<P>,
) -> Result<Option<CodecParameters<P>>, AllocError>
    ensures { IfOk result (λ it. it ≡ spec.heard_answer (spec.rules_in config P.rows P.roles
        P.terms P.multicast_terms P.known P.fault P.reorders P.usages) config offered.now own.now) }
{
    match config.direction {
        Direction::SendRecv => known_answer(alloc, config, offered, own),
        direction => {
            let theirs = heard(alloc, direction.opposite(), offered)?;
            let ours = heard(alloc, direction, own)?;
            known_answer(alloc, config, &theirs, &ours)
        }
    }
}

/// The answer to an offered format in the directions of both, by one of ours that breaks no rule.
fn allowed_answer<P: CodecRules>(
    alloc: Global,
    config: AnswerConfig,
    offered: &CodecParameters<P>,
    own: &CodecParameters<P>,
) -> Result<Option<CodecParameters<P>>, AllocError>
    ensures { IfOk result (λ it. it ≡ spec.allowed_answer (spec.rules_in config P.rows P.roles
        P.terms P.multicast_terms P.known P.fault P.reorders P.usages) config offered.now own.now) }
{
    if own_fault(config, own).is_some() {
        return Ok(None);
    }
    match heard_answer(alloc, config, offered, own)? {
        Some(answer) => Ok(Some(usable(alloc, config, answer)?)),
        None => Ok(None),
    }
}

/// The answer to the parameters of an offered format, by the first of ours that gives one; `None`
/// where none does, and where the standard has no such profile or level, or units may be sent in
/// another order than the caller takes. One of ours that breaks a rule gives none ([`own_fault`] tells
/// it). It is for unicast, or for multicast where `config.multicast` says so (RFC 6184, section 8.2.2;
/// RFC 7798, section 7.2.2; RFC 9328, section 7.3.2), in the answer's direction `config.direction` and
/// the offer's opposite one: what isn't usable there is ignored, of the offer and of ours, and doesn't
/// stand in the answer.
pub fn answer_format<P: CodecRules>(
    alloc: Global,
    config: AnswerConfig,
    offered: &CodecParameters<P>,
    ours: &[CodecParameters<P>],
) -> Result<Option<CodecParameters<P>>, AllocError>
    ensures { IfOk result (λ it. it ≡ spec.answer_of (spec.rules_in config P.rows P.roles
        P.terms P.multicast_terms P.known P.fault P.reorders P.usages) config offered.now ours.now) }
{
    for own in ours {
        if let Some(answer) = allowed_answer(alloc, config, offered, own)? {
            return Ok(Some(answer));
        }
    }
    Ok(None)
}

/// The answer to an offer: of its formats, in its order of preference, the first that one of ours
/// answers, with its payload type; `None` where no two have a configuration in common (RFC 3264,
/// section 6.1). To take more than one format, ask each for its answer.
///
/// ```rust
/// let parameters = H264Parameters::read(alloc, b"profile-level-id=42e01f;packetization-mode=1")?;
/// let offer = [Format { payload_type: 106, parameters }];
/// let ours = [H264Parameters::read(alloc, b"profile-level-id=42e00b;packetization-mode=1")?];
/// let answer = answer_to(alloc, AnswerConfig::default(), &offer, &ours)?;
/// ```
pub fn answer_to<P: CodecRules>(
    alloc: Global,
    config: AnswerConfig,
    offer: &[Format<P>],
    ours: &[CodecParameters<P>],
) -> Result<Option<Format<P>>, AllocError>
    ensures { IfOk result (λ it. it ≡ spec.offer_answer (spec.rules_in config P.rows P.roles
        P.terms P.multicast_terms P.known P.fault P.reorders P.usages) config offer.now ours.now) }
{
    for format in offer {
        if let Some(parameters) = answer_format(alloc, config, &format.parameters, ours)? {
            return Ok(Some(Format {
                payload_type: format.payload_type,
                parameters,
            }));
        }
    }
    Ok(None)
}
