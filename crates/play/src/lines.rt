// Lines, before their words are looked at, and what a command brings.
ghost use Rattle.std.specs.Prelude.{◌≡◌, ◌<◌, ◌∷◌, length, IfSome};
ghost use Rattle.std.specs.Str.Lines.{lines, strip_carriage_return};
ghost use Rattle.fault_script.specs.Lines.{is_passed_over, text_of};
ghost use Rattle.script_words.specs.Gives.{Reads};
ghost use Rattle.set_model.specs.Limits.{IsSoundWrite, write_of};

use fault_script::{ScriptRule, as_text, line_feed};
use set_model::Command;

/// A script has at most so many lines.
pub(crate) const MOST_LINES: u32 = 200_000;

/// How many bytes a line may have, without its end.
const MAX_LINE: usize = 1_048_576;

/// The first line, and what stands after it.
pub(crate) fn next_line(bytes: &[u8]) -> (&[u8], &[u8])
    requires { 0 < length bytes.now }
    ensures cut { lines bytes.now ≡ result.0.now ∷ lines result.1.now }
    ensures shorter { length result.1.now < length bytes.now }
{
    match line_feed(bytes) {
        Some(end) => (without_return(&bytes[..end]), &bytes[end + 1..]),
        None => (bytes, &[]),
    }
}

/// A line without the carriage return before its line feed.
fn without_return(line: &[u8]) -> &[u8]
    ensures { result.now ≡ strip_carriage_return line.now }
{
    match line {
        [front @ .., b'\r'] => front,
        _ => line,
    }
}

/// The text of a line of this number.
#[tactic(auto, unfolding(fault_script::specs::Lines::text_of))]
pub(crate) fn text_of(number: u32, line: &[u8]) -> Result<&str, ScriptRule>
    ensures { Reads (λ text. text.now) result (text_of number line.now) }
{
    if number > MOST_LINES {
        return Err(ScriptRule::TooManyLines);
    }
    if line.len() > MAX_LINE {
        return Err(ScriptRule::LineTooLong);
    }
    match as_text(line) {
        Some(text) => Ok(text),
        None => Err(ScriptRule::NotUtf8),
    }
}

/// Whether a line is empty or a comment.
pub(crate) fn is_passed_over(text: &str) -> bool
    ensures { result ≡ is_passed_over text.now }
{
    text.is_empty() || text.starts_with('#')
}

/// What a command brings is sound at every level: a fact for proofs, which costs nothing.
pub(crate) fn recall_sound_write(command: &Command)
    ensures { IfSome (write_of command.now) IsSoundWrite }
{
    match command {
        Command::Insert { document, .. } => document.recall_sound(),
        Command::Replace { id, document, .. } => {
            id.recall_sound();
            document.recall_sound();
        }
        Command::Update { id, operators, .. } => {
            id.recall_sound();
            operators.recall_sound();
        }
        Command::Delete { id, .. } => id.recall_sound(),
        Command::Retry { op, .. } | Command::Begin { op, .. } => op.recall_sound(),
        _ => {}
    }
}
