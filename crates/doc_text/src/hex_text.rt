// Bytes as hexadecimal digits between quotation marks.
ghost use Rattle.std.specs.Prelude.{◌≡◌, ◌<◌, IfOk, length};
ghost use Rattle.doc_text.specs.Fault.{Gives};
ghost use Rattle.doc_text.specs.HexText.{hex_fault, binary_hex_at, id_hex_at};

use crate::class::Class;
use crate::fault::{Fault, Read, ReadError, Rule};
use crate::marks::strip;
use bson_doc::Bytes;
use hex::FromHex;
use std::alloc::Global;

/// The fault of a byte that is neither a digit nor the closing quotation mark in its place.
fn wrong(stop: &str) -> ReadError
    ensures { result ≡ ReadError.Fault (hex_fault stop.now) }
{
    let rule = if stop.is_empty() {
        Rule::Unexpected
    } else {
        Rule::Hex
    };
    ReadError::Fault(Fault::at(rule, stop))
}

/// The bytes of an even number of digits, after the opening quotation mark.
#[tactic(auto, unfolding(crate::specs::HexText::binary_hex_at))]
pub fn binary_hex<'a>(alloc: Global, text: &'a str) -> Read<'a, Bytes>
    ensures gives { Gives (λ x. (x.0, x.1.now)) result (binary_hex_at text.now) }
    ensures shorter { IfOk result (λ x. length x.1.now < length text.now) }
{
    let (digits, stop) = Class::HexDigit.run(text);
    let Some(rest) = strip(stop, b'"') else {
        return Err(wrong(stop));
    };
    if digits.len() % 2 == 1 {
        return Err(wrong(stop));
    }
    match hex::decode(alloc, digits) {
        Ok(bytes) => Ok((Bytes::new(bytes), rest)),
        // An even number of digits always has bytes.
        Err(_) => Err(ReadError::Memory),
    }
}

/// The bytes of 24 digits, after the opening quotation mark.
#[tactic(auto, unfolding(crate::specs::HexText::id_hex_at))]
pub fn id_hex(text: &str) -> Read<'_, [u8; 12]>
    ensures gives { Gives (λ x. (x.0, x.1.now)) result (id_hex_at text.now) }
    ensures shorter { IfOk result (λ x. length x.1.now < length text.now) }
{
    let (digits, _) = Class::HexDigit.run(text);
    let (digits, stop) = text.split_at(digits.len().min(24));
    let Some(rest) = strip(stop, b'"') else {
        return Err(wrong(stop));
    };
    match <[u8; 12]>::from_hex(digits) {
        Ok(bytes) => Ok((bytes, rest)),
        Err(_) => Err(wrong(stop)),
    }
}
