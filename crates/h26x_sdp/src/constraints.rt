//! The constraints of H.266 that `interop-constraints` says.

ghost use Rattle.std.specs.Prelude.{◌≡◌, ◌==◌, IfOk, slice_index_or};
ghost use Rattle.h26x_core.specs.Word.{field};
ghost use Rattle.h26x_sdp.specs.Constraints as spec;
ghost use Rattle.h26x_sdp.specs.ConstraintsViews.{SaysConstraints};

use crate::error::ConstraintsError;
use base64::DecodeAllocError;
use base64::engine::general_purpose::STANDARD;
use std::alloc::{AllocError, Global};
use std::marker::Model;

/// The byte at a place, or 0 behind the last.
fn byte_at(bytes: &[u8], place: usize) -> u8
    ensures { result ≡ spec.constraints_byte bytes.now place }
{
    if place < bytes.len() { bytes[place] } else { 0 }
}

/// Whether general constraints are among them: gci_present_flag.
pub fn has_general(bytes: &[u8]) -> bool
    ensures { result ≡ spec.has_general bytes.now }
{
    byte_at(bytes, 0) >> 5 & 0x01 == 1
}

/// How many bytes constraints are, of which as many as say so have to be there (Rec. ITU-T H.266,
/// section 7.3.3.2).
pub fn constraints_len(bytes: &[u8]) -> usize
    ensures { result ≡ spec.constraints_len bytes.now }
{
    if !has_general(bytes) {
        return 1;
    }
    let (high, low) = (byte_at(bytes, 9) & 0x3f, byte_at(bytes, 10) >> 6 & 0x03);
    (89 + usize::from(high) * 4 + usize::from(low)) / 8
}

/// What `interop-constraints` of H.266 says: ptl_frame_only_constraint_flag,
/// ptl_multilayer_enabled_flag and general_constraints_info( ) (RFC 9328, section 7.2).
#[derive(Debug, Drop)]
pub struct InteropConstraints {
    bytes: Vec<u8>,
}

impl Model for InteropConstraints {
    ghost use Rattle.std.specs.Prelude.{List, ℕ};

    ghost Value = { List ℕ };

    ghost view = { λ it. it.bytes.items };
}

impl InteropConstraints {
    /// The constraints of bytes: as many as they say, the last of them filled up.
    pub fn from_bytes(bytes: Vec<u8>) -> Result<Self, ConstraintsError>
        ensures { result ≡ spec.as_constraints bytes.items }
    {
        let len = constraints_len(bytes.as_slice());
        if bytes.len() < len {
            return Err(ConstraintsError::Short);
        }
        if len < bytes.len() {
            return Err(ConstraintsError::Long);
        }
        Ok(InteropConstraints { bytes })
    }

    /// Reads them: base64 with its padding (RFC 4648, section 4).
    pub fn read(alloc: Global, text: &[u8]) -> Result<Self, ConstraintsError>
        ensures { SaysConstraints result (spec.constraints_in text.now) }
    {
        match STANDARD.decode(alloc, text) {
            Ok(bytes) => InteropConstraints::from_bytes(bytes),
            Err(DecodeAllocError::DecodeError(_)) => Err(ConstraintsError::NotBase64),
            Err(DecodeAllocError::OutOfMemory) => Err(ConstraintsError::OutOfMemory),
        }
    }

    /// Writes them. They are read as the same.
    pub fn write(&self, alloc: Global) -> Result<Vec<u8>, AllocError>
        ensures { IfOk result (λ text. text.items ≡ spec.constraints_text self.now) }
    {
        Ok(STANDARD.encode(alloc, self.bytes.as_slice())?.into_bytes())
    }

    /// Their bytes, as they stand in profile_tier_level( ).
    pub fn as_bytes(&self) -> &[u8]
        ensures { result.now ≡ self.now }
    {
        self.bytes.as_slice()
    }

    /// ptl_frame_only_constraint_flag: whether each picture is a frame.
    pub fn is_frame_only(&self) -> bool
        ensures { result ≡ (field (spec.constraints_byte self.now 0) 7 7 == 1) }
    {
        byte_at(self.as_bytes(), 0) >> 7 == 1
    }

    /// ptl_multilayer_enabled_flag: whether a stream may have several layers.
    pub fn is_multilayer(&self) -> bool
        ensures { result ≡ (field (spec.constraints_byte self.now 0) 6 6 == 1) }
    {
        byte_at(self.as_bytes(), 0) >> 6 & 0x01 == 1
    }

    /// gci_present_flag: whether general constraints are among them.
    pub fn has_general(&self) -> bool
        ensures { result ≡ spec.has_general self.now }
    {
        has_general(self.as_bytes())
    }
}
