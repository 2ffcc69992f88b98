//! What a transmission has made: its packets, and which calls were made.

ghost use Rattle.std.specs.Prelude.{◌≡◌};
ghost use Rattle.h26x_packetizer.specs.Sending.{contents};

use std::marker::Model;

/// RTP payloads, in the order in which they are sent (RFC 6184, RFC 7798, RFC 9328).
#[derive(Debug, Drop)]
pub struct Packets {
    list: Vec<Vec<u8>>,
}

impl Model for Packets {
    ghost use Rattle.std.specs.Prelude.{ℕ, List};
    ghost use Rattle.h26x_packetizer.specs.Sending.{contents};

    ghost Value = { List (List ℕ) };

    ghost view = { λ a. contents a.list.items };
}

impl Packets {
    /// These packets. It takes no memory.
    pub fn from_vec(list: Vec<Vec<u8>>) -> Self
        ensures { result ≡ contents list.items }
    {
        Packets { list }
    }

    /// The bytes of each packet.
    pub fn as_slice(&self) -> &[Vec<u8>]
        ensures { contents result.now ≡ self.now }
    {
        &self.list
    }

    /// The packets as a vector. It takes no memory.
    pub fn into_vec(self) -> Vec<Vec<u8>>
        ensures { contents result.items ≡ self }
    {
        self.list
    }
}

/// Of each call of a transmission whether it was made.
#[derive(Debug, Drop)]
pub struct Marks {
    marks: Vec<bool>,
}

impl Model for Marks {
    ghost use Rattle.std.specs.Prelude.{Bool, List};

    ghost Value = { List Bool };

    ghost view = { λ a. a.marks.items };
}

impl Marks {
    /// These marks, one for each call. It takes no memory.
    pub fn from_vec(marks: Vec<bool>) -> Self
        ensures { result ≡ marks.items }
    {
        Marks { marks }
    }

    /// The mark of each call.
    pub fn as_slice(&self) -> &[bool]
        ensures { result.now ≡ self.now }
    {
        &self.marks
    }

    /// The marks as a vector. It takes no memory.
    pub fn into_vec(self) -> Vec<bool>
        ensures { result.items ≡ self }
    {
        self.marks
    }
}

/// What a transmission made.
#[derive(Debug, Drop)]
pub struct Carried {
    /// The packets of all calls, in order.
    pub packets: Packets,
    /// Of each call whether it was made; where memory lacked it was not.
    pub made: Marks,
}
