//! Profiles, tiers and levels, and their text.

use crate::header_words::hex_number;
use crate::row::{Words, byte, word};
use crate::said::Said;
use crate::tally::Answers;
use anyhow::{Context, Result, bail};
use h26x_profile::{
    H264LevelIdc, H264ProfileIdc, H264ProfileLevel, H265Level, H265Profile, H265ProfileTierLevel,
    H265Tier, H266Level, H266Profile, H266ProfileTierLevel, H266Tier, Numbered, ProfileTierLevel,
};
use serde::{DeserializeOwned, Serialize};
use std::alloc::Global;
use std::collections::HashMap;
use std::fmt;

/// Each row is of numbers, and of what they name.
#[derive(Drop)]
pub struct Profiles;

impl Answers for Profiles {
    fn answer(
        &mut self,
        alloc: Global,
        name: &str,
        words: &mut Words<'_>,
        said: &mut Said,
    ) -> Result<()> {
        match name {
            "h265-from" => say_all(said, Some(H265ProfileTierLevel::from(three(words)?))),
            "h265-fallback" => say_all(said, Some(H265ProfileTierLevel::FALLBACK)),
            "h265-json" => say_json(
                alloc,
                said,
                format_of::<H265Profile, H265Tier, H265Level>(words)?,
            ),
            "h265-read-json" => say_read::<H265ProfileTierLevel>(alloc, said, word(words)?),
            "h266-from" => say_all(said, Some(H266ProfileTierLevel::from(three(words)?))),
            "h266-fallback" => say_all(said, Some(H266ProfileTierLevel::FALLBACK)),
            "h266-json" => say_json(
                alloc,
                said,
                format_of::<H266Profile, H266Tier, H266Level>(words)?,
            ),
            "h266-read-json" => say_read::<H266ProfileTierLevel>(alloc, said, word(words)?),
            name => match (name.strip_prefix("h265"), name.strip_prefix("h266")) {
                (Some(call), _) => {
                    answer_of::<H265Profile, H265Tier, H265Level>(alloc, call, words, said)
                }
                (_, Some(call)) => {
                    answer_of::<H266Profile, H266Tier, H266Level>(alloc, call, words, said)
                }
                _ => answer_of_h264(name, words, said),
            },
        }
    }
}

/// Those of H.264.
fn answer_of_h264(name: &str, words: &mut Words<'_>, said: &mut Said) -> Result<()> {
    match name {
        "profile-level-id" => {
            let named = H264ProfileLevel::try_from(hex_number(words)?);
            say_h264(said, named.ok())
        }
        "h264-new" => {
            let idc = H264ProfileIdc::try_from(byte(words)?).ok();
            let iop = u8::try_from(hex_number(words)?).ok().context("no byte")?;
            let level = H264LevelIdc::try_from(byte(words)?).ok();
            let (idc, level) = (idc.context("no profile")?, level.context("no level")?);
            say_h264(said, H264ProfileLevel::new(idc, iop, level))
        }
        "h264-profile-idc" => say_found(said, H264ProfileIdc::try_from(byte(words)?).ok()),
        "h264-level" => match H264LevelIdc::try_from(byte(words)?) {
            Ok(level) => {
                said.value(&level)?;
                said.value(&level.ordinal())
            }
            Err(()) => said.word("none"),
        },
        "h264-level-below" => {
            let one = H264LevelIdc::try_from(byte(words)?);
            let other = H264LevelIdc::try_from(byte(words)?);
            say_below(said, one.ok(), other.ok())
        }
        "h264-fallback" => say_h264(said, Some(H264ProfileLevel::FALLBACK)),
        _ => bail!("no call {name}"),
    }
}

/// A level, which has a place in the order of levels.
trait Level: Numbered {
    fn place(self) -> usize;
}

impl Level for H265Level {
    fn place(self) -> usize {
        self.ordinal()
    }
}

impl Level for H266Level {
    fn place(self) -> usize {
        self.ordinal()
    }
}

/// The next three words as numbers of a profile, a tier and a level.
fn three(words: &mut Words<'_>) -> Result<(u8, u8, u8)> {
    Ok((byte(words)?, byte(words)?, byte(words)?))
}

/// What the next three words name.
fn format_of<P: Numbered, T: Numbered, L: Numbered>(
    words: &mut Words<'_>,
) -> Result<Option<ProfileTierLevel<P, T, L>>> {
    let (profile, tier, level) = three(words)?;
    Ok(ProfileTierLevel::new(profile, tier, level))
}

/// Those of H.265 or H.266, behind the codec's name.
fn answer_of<P, T, L>(
    alloc: Global,
    call: &str,
    words: &mut Words<'_>,
    said: &mut Said,
) -> Result<()>
where
    P: Numbered + fmt::Debug + PartialEq + Serialize + DeserializeOwned + Drop,
    T: Numbered + fmt::Debug + PartialEq + Serialize + DeserializeOwned + Drop,
    L: Level + fmt::Debug + PartialOrd + Serialize + DeserializeOwned + Drop,
{
    match call {
        "" => say_all(said, format_of::<P, T, L>(words)?),
        "-profile" => say_named(said, P::from_number(byte(words)?)),
        "-tier" => say_named(said, T::from_number(byte(words)?)),
        "-level" => say_level(said, L::from_number(byte(words)?)),
        "-level-below" => {
            let (one, other) = (byte(words)?, byte(words)?);
            say_below(said, L::from_number(one), L::from_number(other))
        }
        "-at-level" => {
            let format = format_of::<P, T, L>(words)?.context("no format")?;
            let level = L::from_number(byte(words)?).context("no level")?;
            say_numbers(said, format.with_level(level))
        }
        "-fmtp" => {
            let parameters = parameters_of(alloc, word(words)?)?;
            say_all(said, ProfileTierLevel::<P, T, L>::from_fmtp(&parameters))
        }
        "-profile-json" => say_json(alloc, said, P::from_number(byte(words)?)),
        "-tier-json" => say_json(alloc, said, T::from_number(byte(words)?)),
        "-level-json" => say_json(alloc, said, L::from_number(byte(words)?)),
        _ => bail!("no call {call}"),
    }
}

/// A value and its number.
fn say_named<T: Numbered + fmt::Debug>(said: &mut Said, found: Option<T>) -> Result<()> {
    match found {
        Some(value) => {
            said.value(&value)?;
            said.value(&value.to_number())
        }
        None => said.word("none"),
    }
}

/// A level, its place in the order, and its number.
fn say_level<L: Level + fmt::Debug>(said: &mut Said, found: Option<L>) -> Result<()> {
    match found {
        Some(level) => {
            said.value(&level)?;
            said.value(&level.place())?;
            said.value(&level.to_number())
        }
        None => said.word("none"),
    }
}

fn say_found<T: fmt::Debug + Drop>(said: &mut Said, found: Option<T>) -> Result<()> {
    match found {
        Some(value) => said.value(&value),
        None => said.word("none"),
    }
}

/// Whether a level that is there stands below another.
fn say_below<T: PartialOrd + Drop>(
    said: &mut Said,
    one: Option<T>,
    other: Option<T>,
) -> Result<()> {
    match (one, other) {
        (Some(one), Some(other)) => said.fact(one < other),
        _ => bail!("no level"),
    }
}

/// The profile and the level.
fn say_h264(said: &mut Said, named: Option<H264ProfileLevel>) -> Result<()> {
    match named {
        Some(format) => {
            said.value(&format.profile())?;
            said.value(&format.level())
        }
        None => said.word("none"),
    }
}

/// The profile, the tier and the level.
fn say_all<P, T, L>(said: &mut Said, format: Option<ProfileTierLevel<P, T, L>>) -> Result<()>
where
    P: Numbered + fmt::Debug,
    T: Numbered + fmt::Debug,
    L: Numbered + fmt::Debug,
{
    match format {
        Some(format) => {
            said.value(&format.profile())?;
            said.value(&format.tier())?;
            said.value(&format.level())
        }
        None => said.word("none"),
    }
}

/// The numbers of the profile, the tier and the level.
fn say_numbers<P: Numbered, T: Numbered, L: Numbered>(
    said: &mut Said,
    format: ProfileTierLevel<P, T, L>,
) -> Result<()> {
    said.value(&format.profile_id())?;
    said.value(&format.tier_flag())?;
    said.value(&format.level_id())
}

/// The parameters of a format, `name=value` with `;` between each two.
fn parameters_of(alloc: Global, text: &str) -> Result<HashMap<String, String>> {
    let mut parameters = HashMap::new(alloc);
    for parameter in text.split(';') {
        let (name, value) = parameter.split_once('=').context("no parameter")?;
        let (name, value) = (
            String::from_str(alloc, name)?,
            String::from_str(alloc, value)?,
        );
        parameters.insert(name, value)?;
    }
    Ok(parameters)
}

/// The text of a value that is there, which is read as the same value.
fn say_json<T: PartialEq + Serialize + DeserializeOwned + Drop>(
    alloc: Global,
    said: &mut Said,
    value: Option<T>,
) -> Result<()> {
    let value = value.context("no value")?;
    let text = serde_json::to_string(alloc, &value)?;
    said.word(text.as_str())?;
    let read: T = serde_json::from_value(
        alloc,
        serde_json::Value::from_str(alloc, text.as_str())?,
    )?;
    said.fact(read == value)
}

/// What a text is read as.
fn say_read<T: fmt::Debug + DeserializeOwned + Drop>(
    alloc: Global,
    said: &mut Said,
    text: &str,
) -> Result<()> {
    let read: Result<T, serde_json::Error> = serde_json::from_value(
        alloc,
        serde_json::Value::from_str(alloc, text)?,
    );
    match read {
        Ok(value) => said.value(&value),
        Err(_) => said.word("refused"),
    }
}
