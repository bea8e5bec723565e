// A short text, stored in the value itself.
ghost use Rattle.std.specs.Prelude.{◌≡◌, IfSome};

use crate::ascii::are_ascii;
use percent_encoding::ascii_str;
use std::marker::Model;

/// How many bytes fit. Most names have no more. They are the second and third word of a text.
const ROOM: usize = 16;

/// ASCII in at most 16 bytes. Only ASCII becomes a `&str` again without a test of its bytes.
#[derive(Drop)]
pub struct ShortText {
    length: u32,
    /// The text, and zeros after it.
    bytes: [u8; ROOM],
}

impl Model for ShortText {
    ghost use Rattle.std.specs.Prelude.{List, ℕ, ◌≤◌, take};
    ghost use Rattle.std.specs.Str.{IsAscii};
    ghost use Rattle.bson_doc.specs.declared.short.TheConstants.{ROOM};

    ghost Value = { List ℕ };

    ghost view = { λ t. take t.length t.bytes };

    ghost invariant = { λ t. (t.length ≤ ROOM) × IsAscii t.bytes };
}

impl ShortText {
    /// The text, where it is ASCII and fits.
    pub fn of(text: &str) -> Option<Self>
        ensures { IfSome result (λ t. t ≡ text.now) }
    {
        let length = text.len();
        if length > ROOM {
            return None;
        }
        let mut bytes = [0; ROOM];
        bytes[..length].copy_from_slice(text.as_bytes());
        if !are_ascii(&bytes) {
            return None;
        }
        Some(ShortText {
            length: length as u32,
            bytes,
        })
    }

    /// The text as a string.
    pub fn as_str(&self) -> &str
        ensures { result.now ≡ self.now }
    {
        ascii_str(&self.bytes[..self.length as usize])
    }

    /// A copy of the text. It takes no memory.
    pub fn copy(&self) -> Self
        ensures { result ≡ self.now }
    {
        ShortText {
            length: self.length,
            bytes: self.bytes,
        }
    }
}
