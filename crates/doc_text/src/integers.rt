// Numbers in decimal.
ghost use Rattle.std.specs.Prelude.{◌≤◌, ◌<◌, IfOk, length};
ghost use Rattle.std.specs.Str.Parse.{IsNumeral, without_leading_sign};
ghost use Rattle.bson_doc.specs.View.{tree_of};
ghost use Rattle.doc_text.specs.Fault.{Gives};
ghost use Rattle.doc_text.specs.Integers.{digits_at, integer_at, natural_at, long_at, number_at};

use crate::class::Class;
use crate::fault::{Fault, Read, ReadError, Rule};
use crate::marks::strip;
use bson_doc::Value;

/// One or more digits.
#[tactic(auto, unfolding(crate::specs::Integers::digits_at))]
fn digits(text: &str) -> Read<'_, &str>
    ensures gives { Gives (λ x. (x.0.now, x.1.now)) result (digits_at text.now) }
    ensures shorter { IfOk result (λ x. length x.1.now < length text.now) }
    ensures numeral { IfOk result (λ x. IsNumeral 10 x.0.now) }
{
    let (digits, rest) = Class::Digit.run(text);
    if digits.is_empty() {
        return Err(ReadError::Fault(Fault::at(Rule::Unexpected, text)));
    }
    Ok((digits, rest))
}

/// Digits with an optional minus sign.
#[tactic(auto, unfolding(crate::specs::Integers::integer_at))]
fn integer(text: &str) -> Read<'_, &str>
    ensures gives { Gives (λ x. (x.0.now, x.1.now)) result (integer_at text.now) }
    ensures shorter { IfOk result (λ x. length x.1.now < length text.now) }
    ensures numeral { IfOk result (λ x. IsNumeral 10 (without_leading_sign x.0.now)) }
{
    let Some(unsigned) = strip(text, b'-') else {
        return digits(text);
    };
    let (_, rest) = digits(unsigned)?;
    Ok(text.split_at(text.len() - rest.len()))
}

/// A number of at most 2^32 - 1.
#[tactic(auto, unfolding(crate::specs::Integers::natural_at))]
pub fn natural(text: &str, most: u32) -> Read<'_, u32>
    ensures gives { Gives (λ x. (x.0, x.1.now)) result (natural_at most text.now) }
    ensures shorter { IfOk result (λ x. length x.1.now < length text.now) }
    ensures within { IfOk result (λ x. x.0 ≤ most) }
{
    let (digits, rest) = digits(text)?;
    match digits.parse::<u32>() {
        Ok(number) if number <= most => Ok((number, rest)),
        _ => Err(ReadError::Fault(Fault::at(Rule::Number, text))),
    }
}

/// A number of 64 bits, with no letter after it.
#[tactic(auto, unfolding(crate::specs::Integers::long_at))]
pub fn long(text: &str) -> Read<'_, i64>
    ensures gives { Gives (λ x. (x.0, x.1.now)) result (long_at text.now) }
    ensures shorter { IfOk result (λ x. length x.1.now < length text.now) }
{
    let (numeral, rest) = integer(text)?;
    match numeral.parse::<i64>() {
        Ok(number) => Ok((number, rest)),
        Err(_) => Err(ReadError::Fault(Fault::at(Rule::Number, text))),
    }
}

/// An int64, which has an `L` after it, or an int32. It is read whole before its range is tested.
#[tactic(auto, unfolding(crate::specs::Integers::number_at))]
pub fn number(text: &str) -> Read<'_, Value>
    ensures gives { Gives (λ x. (tree_of x.0, x.1.now)) result (number_at text.now) }
    ensures shorter { IfOk result (λ x. length x.1.now < length text.now) }
{
    let (numeral, rest) = integer(text)?;
    if let Some(rest) = strip(rest, b'L') {
        return match numeral.parse::<i64>() {
            Ok(number) => Ok((Value::Int64(number), rest)),
            Err(_) => Err(ReadError::Fault(Fault::at(Rule::Number, text))),
        };
    }
    match numeral.parse::<i32>() {
        Ok(number) => Ok((Value::Int32(number), rest)),
        Err(_) => Err(ReadError::Fault(Fault::at(Rule::Number, text))),
    }
}
