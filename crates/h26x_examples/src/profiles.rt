//! The forms that serde writes of profiles and levels; rows of `h26x_rows` have that of each value.

use h26x_profile::{H265ProfileTierLevel, H266ProfileTierLevel};
use serde::{Deserialize, DeserializeOwned, Serialize};
use std::alloc::Global;
use std::test::Fail;

/// Whether a value is written as this text, and read from it.
fn is_written_as<T: PartialEq + Serialize + DeserializeOwned>(
    alloc: Global,
    value: &T,
    text: &str,
) -> Result<bool, Fail> {
    let written = serde_json::to_string(alloc, value)?;
    let read: T = serde_json::from_value(alloc, serde_json::Value::from_str(alloc, text)?)?;
    Ok(written.as_str() == text && read == *value)
}

/// Whether a value is read from this text, of which it may keep parts.
fn is_read_from<'de, T: PartialEq + Deserialize<'de>>(
    alloc: Global,
    value: &T,
    text: &'de str,
) -> Result<bool, Fail> {
    let read: T = serde_json::from_str(alloc, text)?;
    Ok(read == *value)
}

#[test]
fn json_of_h265(rt: HostRuntime) -> Result<(), Fail> {
    let text = "{\"profile\":\"Main\",\"tier\":\"Main\",\"level\":\"Level3_1\"}";
    let written = is_written_as(rt.alloc(), &H265ProfileTierLevel::FALLBACK, text)?;
    assert!(rt; written && is_read_from(rt.alloc(), &H265ProfileTierLevel::FALLBACK, text)?);
    Ok(())
}

#[test]
fn json_of_h266(rt: HostRuntime) -> Result<(), Fail> {
    let text = "{\"profile\":\"Main10_444\",\"tier\":\"High\",\"level\":\"Level15_5\"}";
    let value = H266ProfileTierLevel::from((33, 1, 255));
    let written = is_written_as(rt.alloc(), &value, text)?;
    assert!(rt; written && is_read_from(rt.alloc(), &value, text)?);
    Ok(())
}

#[test]
fn json_of_an_unknown_level(rt: HostRuntime) {
    let text = "{\"profile\":\"Main\",\"tier\":\"Main\",\"level\":\"Level9\"}";
    let read: Result<H265ProfileTierLevel, serde_json::Error> = serde_json::from_str(
        rt.alloc(),
        text,
    );
    assert!(rt; read.is_err());
}
