// Strings and their escapes.
ghost use Rattle.std.specs.Prelude.{◌<◌, IfOk, length};
ghost use Rattle.std.specs.Char.{IsScalar};
ghost use Rattle.doc_text.specs.Fault.{Gives};
ghost use Rattle.doc_text.specs.Strings.{hex_digit_at, unicode_at, escape_at, letters_at};

use crate::class::Class;
use crate::fault::{Fault, Read, ReadError, Rule};
use crate::marks::{skip, strip};
use bson_doc::Text;
use hex::FromHex;
use std::alloc::Global;

#[tactic(auto, unfolding(crate::specs::Strings::hex_digit_at))]
fn hex_digit(text: &str) -> Read<'_, u8>
    ensures gives { Gives (λ x. (x.0, x.1.now)) result (hex_digit_at text.now) }
    ensures shorter { IfOk result (λ x. length x.1.now < length text.now) }
    ensures small { IfOk result (λ x. x.0 < 16) }
{
    let [first, ..] = text.as_bytes() else {
        return Err(ReadError::Fault(Fault::at(Rule::Unexpected, text)));
    };
    match <[u8; 1]>::from_hex([b'0', *first]) {
        Ok(digits) => Ok((digits[0], skip(text))),
        Err(_) => Err(ReadError::Fault(Fault::at(Rule::Escape, text))),
    }
}

/// The character of four hex digits. No digit from 8 on comes after a leading `d`: it would make a surrogate.
/// In a name the digits don't make a zero.
#[tactic(auto, unfolding(crate::specs::Strings::unicode_at))]
fn unicode(text: &str, in_name: bool) -> Read<'_, char>
    ensures gives { Gives (λ x. (x.0, x.1.now)) result (unicode_at in_name text.now) }
    ensures shorter { IfOk result (λ x. length x.1.now < length text.now) }
    ensures scalar { IfOk result (λ x. IsScalar x.0) }
{
    let (first, second_on) = hex_digit(text)?;
    let (second, third_on) = hex_digit(second_on)?;
    if first == 13 && second >= 8 {
        return Err(ReadError::Fault(Fault::at(Rule::Escape, second_on)));
    }
    let (third, fourth_on) = hex_digit(third_on)?;
    let (fourth, rest) = hex_digit(fourth_on)?;
    let code = ((u32::from(first) * 16 + u32::from(second)) * 16 + u32::from(third)) * 16
        + u32::from(fourth);
    if in_name && code == 0 {
        return Err(ReadError::Fault(Fault::at(Rule::NameZero, fourth_on)));
    }
    match char::from_u32(code) {
        Some(character) => Ok((character, rest)),
        None => unreachable!(),
    }
}

/// The character of an escape, after its backslash.
#[tactic(auto, unfolding(crate::specs::Strings::escape_at))]
fn escape(text: &str, in_name: bool) -> Read<'_, char>
    ensures gives { Gives (λ x. (x.0, x.1.now)) result (escape_at in_name text.now) }
    ensures shorter { IfOk result (λ x. length x.1.now < length text.now) }
    ensures scalar { IfOk result (λ x. IsScalar x.0) }
{
    let [letter, ..] = text.as_bytes() else {
        return Err(ReadError::Fault(Fault::at(Rule::Unexpected, text)));
    };
    let character = match letter {
        b'"' => '"',
        b'\\' => '\\',
        b'n' => '\n',
        b'r' => '\r',
        b't' => '\t',
        b'u' => return unicode(skip(text), in_name),
        _ => return Err(ReadError::Fault(Fault::at(Rule::Escape, text))),
    };
    Ok((character, skip(text)))
}

/// A string's characters after its opening quotation mark, and the text after the closing one.
#[tactic(auto, unfolding(crate::specs::Strings::letters_at))]
pub fn letters<'a>(alloc: Global, text: &'a str, in_name: bool) -> Read<'a, Text>
    ensures gives { Gives (λ x. (x.0, x.1.now)) result (letters_at in_name (length text.now) text.now) }
    ensures shorter { IfOk result (λ x. length x.1.now < length text.now) }
{
    let mut string = String::new(alloc);
    let mut rest = text;
    loop {
        let (plain, stop) = Class::Plain.run(rest);
        string.push_str(plain)?;
        if let Some(end) = strip(stop, b'"') {
            return Ok((Text::new(alloc, string)?, end));
        }
        let Some(inside) = strip(stop, b'\\') else {
            return Err(ReadError::Fault(Fault::at(Rule::Unexpected, stop)));
        };
        let (character, after) = escape(inside, in_name)?;
        string.push(character)?;
        rest = after;
    }
}
