// The parts of an element, read from the start of what is left of its document.
ghost use Rattle.std.specs.Prelude.{◌≡◌, ◌≤◌, IfOk, Contains, is_some, drop, position, ◌==◌};
ghost use Rattle.std.specs.Str.Lossy.{utf8_valid_len, utf8_error_len};
ghost use Rattle.bson_doc.specs.View.{tree_of};
ghost use Rattle.bson_codec.specs.Outcome.{Gives};
ghost use Rattle.bson_codec.specs.Reading.{length_at, text_at, binary_at, boolean_at, name_at, known_name_at, content_at, utf8, byte_at};

use crate::DecodeError;
use crate::numbers::{bytes_of, u32_of};
use bson_doc::{Bytes, Text, Value};
use std::alloc::Global;
use std::str::from_utf8;

/// The first byte, and the bytes after it. `Length` where there is none.
pub fn byte_of(bytes: &[u8]) -> Result<(u8, &[u8]), DecodeError>
    ensures { Gives (λ x. (x.0, x.1.now)) result (byte_at bytes.now) }
{
    match bytes {
        [] => Err(DecodeError::Length),
        [byte, rest @ ..] => Ok((*byte, rest)),
    }
}

#[tactic(auto, unfolding(crate::specs::Reading::length_at))]
fn length_of(bytes: &[u8], least: u32) -> Result<(usize, &[u8]), DecodeError>
    ensures length { Gives (λ x. (x.0, x.1.now)) result (length_at least bytes.now) }
    ensures enough { IfOk result (λ x. least ≤ x.0) }
{
    let (length, rest) = u32_of(bytes)?;
    if length < least || length >= 1 << 31 {
        return Err(DecodeError::Length);
    }
    Ok((length as usize, rest))
}

fn letters_of(bytes: &[u8]) -> Result<&str, DecodeError>
    ensures { Gives (λ text. text.now) result (utf8 bytes.now) }
{
    match from_utf8(bytes) {
        Ok(text) => Ok(text),
        Err(_) => Err(DecodeError::Utf8),
    }
}

/// A string, and the bytes after it: a length in four bytes that counts the closing zero, the letters, and
/// that zero. `Length` where the length is 0 or doesn't fit, else `Utf8` where the letters aren't UTF-8, else
/// `Length` where the last byte isn't zero.
#[tactic(auto, unfolding(crate::specs::Reading::text_at))]
pub fn text_of(alloc: Global, bytes: &[u8]) -> Result<(Text, &[u8]), DecodeError>
    ensures { Gives (λ x. (x.0, x.1.now)) result (text_at bytes.now) }
{
    let (length, rest) = length_of(bytes, 1)?;
    let (whole, rest) = bytes_of(rest, length)?;
    let letters = letters_of(&whole[..length - 1])?;
    if whole[length - 1] != 0 {
        return Err(DecodeError::Length);
    }
    Ok((Text::from_str(alloc, letters)?, rest))
}

/// A binary, and the bytes after it: a length in four bytes, the subtype, and as many bytes as the length
/// says. `Length` where fewer are left.
#[tactic(auto, unfolding(crate::specs::Reading::binary_at))]
pub fn binary_of(alloc: Global, bytes: &[u8]) -> Result<(Value, &[u8]), DecodeError>
    ensures { Gives (λ x. (tree_of x.0, x.1.now)) result (binary_at bytes.now) }
{
    let (length, rest) = length_of(bytes, 0)?;
    let (subtype, rest) = byte_of(rest)?;
    let (content, rest) = bytes_of(rest, length)?;
    let content = Bytes::new(content.to_vec(alloc)?);
    Ok((Value::Binary(subtype, content), rest))
}

/// A boolean, and the bytes after it. `Length` where there is no byte, and `Bool` where the byte is neither
/// 0 nor 1.
#[tactic(auto, unfolding(crate::specs::Reading::boolean_at))]
pub fn boolean_of(bytes: &[u8]) -> Result<(Value, &[u8]), DecodeError>
    ensures { Gives (λ x. (tree_of x.0, x.1.now)) result (boolean_at bytes.now) }
{
    let (byte, rest) = byte_of(bytes)?;
    if byte >= 2 {
        return Err(DecodeError::Bool);
    }
    Ok((Value::Boolean(byte == 1), rest))
}

fn first_zero(bytes: &[u8]) -> Option<usize>
    ensures { result ≡ position (λ b. b == 0) bytes.now }
{
    bytes.iter().position(|byte| *byte == 0)
}

/// Whether a byte before the end can't continue UTF-8.
fn breaks_utf8(bytes: &[u8]) -> bool
    ensures { result ≡ is_some (utf8_error_len (drop (utf8_valid_len bytes.now) bytes.now)) }
{
    match from_utf8(bytes) {
        Ok(_) => false,
        Err(error) => error.error_len().is_some(),
    }
}

/// A name, and the bytes after the zero that closes it. `Utf8` where it isn't UTF-8, and `Length` where no
/// zero closes it.
#[tactic(auto, unfolding(crate::specs::Reading::name_at))]
pub fn name_of(bytes: &[u8]) -> Result<(&str, &[u8]), DecodeError>
    ensures name { Gives (λ x. (x.0.now, x.1.now)) result (name_at bytes.now) }
    ensures clean { IfOk result (λ x. ¬ Contains x.0.now 0) }
{
    match first_zero(bytes) {
        Some(end) => {
            let letters = letters_of(&bytes[..end])?;
            Ok((letters, &bytes[end + 1..]))
        }
        None if breaks_utf8(bytes) => Err(DecodeError::Utf8),
        None => Err(DecodeError::Length),
    }
}

/// The bytes after a name that is known beforehand, as an array item's is, and after its zero. `ArrayName`
/// where another name is there, `Utf8` where the first wrong byte can't begin a character, and `Length` where
/// the bytes end.
#[tactic(auto, unfolding(crate::specs::Reading::known_name_at))]
pub fn known_name_of<'a>(name: &[u8], bytes: &'a [u8]) -> Result<&'a [u8], DecodeError>
    ensures { Gives (λ rest. rest.now) result (known_name_at name.now bytes.now) }
{
    let mut rest = bytes;
    for wanted in name {
        match rest {
            [] => return Err(DecodeError::Length),
            [byte, after @ ..] if byte == wanted => rest = after,
            [0..0x80 | 0xC2..0xF5, ..] => return Err(DecodeError::ArrayName),
            _ => return Err(DecodeError::Utf8),
        }
    }
    Ok(rest)
}

/// The bytes of a document after its length, and the bytes after the document. `Length` where the length is
/// below 5 or doesn't fit.
#[tactic(auto, unfolding(crate::specs::Reading::content_at))]
pub fn content_of(bytes: &[u8]) -> Result<(&[u8], &[u8]), DecodeError>
    ensures { Gives (λ x. (x.0.now, x.1.now)) result (content_at bytes.now) }
{
    let (length, rest) = length_of(bytes, 5)?;
    bytes_of(rest, length - 4)
}
