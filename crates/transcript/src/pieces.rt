// Texts that several replies share.
ghost use Rattle.std.specs.Prelude.{◌≡◌, ◌++◌, OnOk, string_bytes};
ghost use Rattle.std.specs.Fmt.{decimal};
ghost use Rattle.rs_optime.specs.Text.{optime_text};

use bson_doc::Mem;
use itoa::Buffer;
use rs_optime::OpTime;

/// Appends a number. Most replies have some, and a buffer costs less than formatting.
pub fn write_number(number: u64, out: &mut String) -> Mem<()>
    ensures { OnOk result (string_bytes out.new ≡ string_bytes out.old ++ decimal number) }
{
    out.push_str(Buffer::new().format(number))
}

/// Appends an optime, as its `Display` does.
pub fn write_optime(at: OpTime, out: &mut String) -> Mem<()>
    ensures { OnOk result (string_bytes out.new ≡ string_bytes out.old ++ optime_text at) }
{
    write_number(at.term, out)?;
    out.push_str("/")?;
    write_number(at.ts >> 32, out)?;
    out.push_str("/")?;
    write_number(at.ts & 0xffff_ffff, out)
}

/// Appends some words and an optime.
pub fn write_at(words: &str, at: OpTime, out: &mut String) -> Mem<()>
    ensures { OnOk result (string_bytes out.new ≡ string_bytes out.old ++ (words.now ++ optime_text at)) }
{
    out.push_str(words)?;
    write_optime(at, out)
}

/// Appends a number and an optime, with words before each.
pub fn write_counted(
    words: &str,
    count: u64,
    between: &str,
    at: OpTime,
    out: &mut String,
) -> Mem<()>
    ensures { OnOk result (string_bytes out.new
        ≡ string_bytes out.old ++ (words.now ++ decimal count ++ between.now ++ optime_text at)) }
{
    out.push_str(words)?;
    write_number(count, out)?;
    out.push_str(between)?;
    write_optime(at, out)
}

/// Appends an optime and a number, with words before each.
pub fn write_counted_after(
    words: &str,
    at: OpTime,
    between: &str,
    count: u64,
    out: &mut String,
) -> Mem<()>
    ensures { OnOk result (string_bytes out.new
        ≡ string_bytes out.old ++ (words.now ++ optime_text at ++ between.now ++ decimal count)) }
{
    out.push_str(words)?;
    write_optime(at, out)?;
    out.push_str(between)?;
    write_number(count, out)
}

/// Appends two numbers, with words before each.
pub fn write_pair(words: &str, first: u64, between: &str, second: u32, out: &mut String) -> Mem<()>
    ensures { OnOk result (string_bytes out.new
        ≡ string_bytes out.old ++ (words.now ++ decimal first ++ between.now ++ decimal second)) }
{
    out.push_str(words)?;
    write_number(first, out)?;
    out.push_str(between)?;
    write_number(u64::from(second), out)
}
