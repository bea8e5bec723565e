// The lines of a trace.
ghost use Rattle.std.specs.Prelude.{◌≡◌};
ghost use Rattle.std.specs.Option.{option_copied};
ghost use Rattle.script_words.specs.Gives.{Reads};
ghost use Rattle.run_checker.specs.Reading.{after_line, line_at, text_of};

use fault_script::{ScriptRule, as_text, line_feed};

/// The first line without its end, and what follows that end, if it has one.
pub fn next_line(bytes: &[u8]) -> (&[u8], Option<&[u8]>)
    ensures line { result.0.now ≡ line_at bytes.now }
    ensures rest { option_copied result.1 ≡ after_line bytes.now }
{
    match line_feed(bytes) {
        Some(end) => (&bytes[..end], Some(&bytes[end + 1..])),
        None => (bytes, None),
    }
}

/// The text of a line. `NotUtf8`: it isn't UTF-8.
pub fn text_of(line: &[u8]) -> Result<&str, ScriptRule>
    ensures { Reads (λ text. text.now) result (text_of line.now) }
{
    match as_text(line) {
        Some(text) => Ok(text),
        None => Err(ScriptRule::NotUtf8),
    }
}
