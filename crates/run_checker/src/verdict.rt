// What is printed about bytes that were checked.
ghost use Rattle.std.specs.Prelude.{◌≡◌, ◌++◌, OnOk, string_bytes};
ghost use Rattle.run_checker.specs.Verdicts.{count_text, named_line, no_trace_text};

use crate::checking::CheckError;
use bson_doc::Mem;
use transcript::write_number;

/// Appends that the bytes are a trace of this many events.
pub fn write_count(count: u64, out: &mut String) -> Mem<()>
    ensures { OnOk result (string_bytes out.new ≡ string_bytes out.old ++ count_text count) }
{
    out.push_str("yes ")?;
    write_number(count, out)?;
    out.push_str("\n")
}

/// Appends why they aren't one; nothing if memory ran out.
pub fn write_no_trace(why: CheckError, out: &mut String) -> Mem<()>
    ensures { OnOk result (string_bytes out.new ≡ string_bytes out.old ++ no_trace_text why) }
{
    match why {
        CheckError::BadHeader(number) => write_line(number, "BadHeader", out),
        CheckError::BadEvent(number) => write_line(number, "BadEvent", out),
        CheckError::NoFit(number) => write_line(number, "NoFit", out),
        CheckError::OtherReply(number) => write_line(number, "OtherReply", out),
        CheckError::Memory => Ok(()),
    }
}

fn write_line(number: u64, reason: &str, out: &mut String) -> Mem<()>
    ensures { OnOk result (string_bytes out.new ≡ string_bytes out.old ++ named_line number reason.now) }
{
    out.push_str("line ")?;
    write_number(number, out)?;
    out.push_str(": ")?;
    out.push_str(reason)?;
    out.push_str("\n")
}
