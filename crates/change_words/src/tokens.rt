// The text of resume tokens.
ghost use Rattle.std.specs.Prelude.{◌≡◌, ◌++◌, OnOk, string_bytes};
ghost use Rattle.std.specs.List.{list_all};
ghost use Rattle.change_words.specs.Tokens.{digits_text, is_lower_digit, number_of_digits, token_of, token_text};

use bson_doc::Mem;
use hex::FromHex;
use rs_optime::OpTime;

/// Appends a token: the term and the timestamp, each in 16 digits.
pub fn write_token(at: OpTime, out: &mut String) -> Mem<()>
    ensures { OnOk result (string_bytes out.new ≡ string_bytes out.old ++ token_text at) }
{
    write_digits(at.term, out)?;
    write_digits(at.ts, out)
}

fn write_digits(number: u64, out: &mut String) -> Mem<()>
    ensures { OnOk result (string_bytes out.new ≡ string_bytes out.old ++ digits_text number) }
{
    let digits = hex::encode(*out.allocator(), number.to_be_bytes())?;
    out.push_str(&digits)
}

/// The token of 32 digits; none for another word.
pub fn token_of(word: &[u8]) -> Option<OpTime>
    ensures { result ≡ token_of word.now }
{
    if word.len() != 32 || !are_lower_digits(word) {
        return None;
    }
    let (term, ts) = word.split_at(16);
    Some(OpTime {
        term: number_of(term)?,
        ts: number_of(ts)?,
    })
}

fn are_lower_digits(word: &[u8]) -> bool
    ensures { result ≡ list_all is_lower_digit word.now }
{
    word.iter().all(|byte| is_lower_digit(*byte))
}

fn is_lower_digit(byte: u8) -> bool
    ensures { result ≡ is_lower_digit byte }
{
    byte.is_ascii_digit() || (b'a' <= byte && byte <= b'f')
}

/// The number of 16 digits.
fn number_of(digits: &[u8]) -> Option<u64>
    ensures { result ≡ number_of_digits digits.now }
{
    match <[u8; 8]>::from_hex(digits) {
        Ok(bytes) => Some(u64::from_be_bytes(bytes)),
        Err(_) => None,
    }
}
