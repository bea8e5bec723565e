// Bytes that are ASCII.
ghost use Rattle.std.specs.Prelude.{◌≡◌, MatchOption};
ghost use Rattle.std.specs.Bool.{MatchBool};
ghost use Rattle.std.specs.Str.{IsAscii, IsNotAscii};

use percent_encoding::ascii_str;

/// The text of bytes that are ASCII. The test of them is shorter than that for UTF-8.
pub fn ascii_text(bytes: &[u8]) -> Option<&str>
    ensures { MatchOption result (IsNotAscii bytes.now) (λ text. (text.now ≡ bytes.now) × IsAscii bytes.now) }
{
    if are_ascii(bytes) {
        Some(ascii_str(bytes))
    } else {
        None
    }
}

/// Whether each byte is ASCII. It has no early end, so that several bytes are tested at once.
#[inline(always)]
pub fn are_ascii(bytes: &[u8]) -> bool
    ensures { MatchBool result (IsAscii bytes.now) (IsNotAscii bytes.now) }
{
    let mut all = true;
    for byte in bytes {
        all &= *byte < 128;
    }
    all
}
