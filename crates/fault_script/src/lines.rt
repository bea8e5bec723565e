// The lines of a script.
ghost use Rattle.std.specs.Prelude.{◌≡◌, ◌<◌, ◌∷◌, ◌==◌, length, position, MatchOption};
ghost use Rattle.std.specs.Str.{IsUtf8};
ghost use Rattle.std.specs.Str.Lines.{lines, strip_carriage_return};
ghost use Rattle.script_words.specs.Gives.{Reads};
ghost use Rattle.fault_script.specs.Lines.{text_of, is_passed_over};

use bson_doc::ascii_text;
use memchr::memchr;
use script_words::ScriptRule;
use std::str;

/// How many lines a script may have.
const MAX_LINES: u32 = 200_000;

/// How many bytes a line may have, without its end.
const MAX_LINE: usize = 1_048_576;

/// The first line, and what follows it.
pub fn next_line(bytes: &[u8]) -> (&[u8], &[u8])
    requires { 0 < length bytes.now }
    ensures cut { lines bytes.now ≡ result.0.now ∷ lines result.1.now }
    ensures shorter { length result.1.now < length bytes.now }
{
    match line_feed(bytes) {
        Some(end) => (without_return(&bytes[..end]), &bytes[end + 1..]),
        None => (bytes, &[]),
    }
}

/// The place of the first line feed.
pub fn line_feed(bytes: &[u8]) -> Option<usize>
    ensures { result ≡ position (λ byte. byte == 10) bytes.now }
{
    memchr(b'\n', bytes)
}

/// A line without the carriage return before its line feed.
fn without_return(line: &[u8]) -> &[u8]
    ensures { result.now ≡ strip_carriage_return line.now }
{
    match line {
        [front @ .., b'\r'] => front,
        _ => line,
    }
}

/// The text of a line. `TooManyLines`: its number is above 200,000. `LineTooLong`: it has more than 1,048,576
/// bytes. `NotUtf8`: it isn't UTF-8.
#[tactic(auto, unfolding(crate::specs::Lines::text_of))]
pub fn text_of(number: u32, line: &[u8]) -> Result<&str, ScriptRule>
    ensures { Reads (λ text. text.now) result (text_of number line.now) }
{
    if number > MAX_LINES {
        return Err(ScriptRule::TooManyLines);
    }
    if line.len() > MAX_LINE {
        return Err(ScriptRule::LineTooLong);
    }
    match as_text(line) {
        Some(text) => Ok(text),
        None => Err(ScriptRule::NotUtf8),
    }
}

/// The bytes as text, if they are UTF-8. Most lines are ASCII, which is quicker to test.
pub fn as_text(line: &[u8]) -> Option<&str>
    ensures { MatchOption result (¬ IsUtf8 line.now) (λ text. (text.now ≡ line.now) × IsUtf8 line.now) }
{
    match ascii_text(line) {
        Some(text) => Some(text),
        None => str::from_utf8(line).ok(),
    }
}

/// Whether a line is empty or a comment.
pub fn is_passed_over(text: &str) -> bool
    ensures { result ≡ is_passed_over text.now }
{
    text.is_empty() || text.starts_with('#')
}
