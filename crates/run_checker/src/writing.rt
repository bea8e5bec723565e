// Writes a trace.
ghost use Rattle.std.specs.Prelude.{◌≡◌, ◌<◌, ◌^◌, ◌++◌, IfSome, OnErr, OnOk, length, string_bytes};
ghost use Rattle.run_checker.specs.Trace.{IsPlain, entries_text, entry_text, event_text, failed_word, header_text, kept_word, trace_text};

use crate::commands::write_command;
use crate::sizes::Sizes;
use bson_doc::Mem;
use set_model::{Event, Reply};
use transcript::{push_reply, write_number};

/// Appends the trace of a set of these sizes that did these events and gave these replies. Out of memory
/// leaves `out` as it was.
pub fn write_trace(sizes: Sizes, events: &[Event], replies: &[Reply], out: &mut String) -> Mem<()>
    requires { length events.now ≡ length replies.now }
    ensures ok { OnOk result (string_bytes out.new
        ≡ string_bytes out.old ++ trace_text sizes events.now replies.now) }
    ensures err { OnErr result (string_bytes out.new ≡ string_bytes out.old) }
{
    let mut text = String::new(*out.allocator());
    write_header(sizes, &mut text)?;
    write_entries(events, replies, &mut text)?;
    out.push_str(&text)
}

/// Writes the header of a trace into `text` in place of what was there, reusing its memory. If memory runs
/// out, `text` is of no use.
pub fn set_header(sizes: Sizes, text: &mut String) -> Mem<()>
    ensures { OnOk result (string_bytes text.new ≡ header_text sizes) }
{
    text.clear();
    write_header(sizes, text)
}

/// Writes an event with its reply, as `set_header` does the header.
pub fn set_entry(event: &Event, reply: &Reply, text: &mut String) -> Mem<()>
    ensures text { OnOk result (string_bytes text.new ≡ entry_text (event.now, reply.now)) }
    ensures plain { OnOk result (IsPlain event.now) }
{
    text.clear();
    write_entry(event, reply, text)?;
    recall_plain(event, reply, text.as_str());
    Ok(())
}

/// An event whose entry was written is plain: a fact for proofs, which costs nothing.
fn recall_plain(event: &Event, reply: &Reply, entry: &str)
    requires { entry.now ≡ entry_text (event.now, reply.now) }
    ensures { IsPlain event.now }
{
    recall_numbers(event.line, event.failed);
    let _ = reply;
    let _ = entry;
}

/// The numbers of an event are below 2^32, as their types say: a fact for proofs, which costs nothing.
fn recall_numbers(line: u32, failed: Option<u32>)
    ensures line { line < 2 ^ 32 }
    ensures failed { IfSome failed (λ store. store < 2 ^ 32) }
{
    if let Some(store) = failed {
        let _ = store;
    }
    let _ = line;
}

fn write_entries(events: &[Event], replies: &[Reply], out: &mut String) -> Mem<()>
    requires { length events.now ≡ length replies.now }
    ensures { OnOk result
        (string_bytes out.new ≡ string_bytes out.old ++ entries_text events.now replies.now) }
{
    for (event, reply) in events.iter().zip(replies.iter()) {
        write_entry(event, reply, out)?;
    }
    Ok(())
}

fn write_header(sizes: Sizes, out: &mut String) -> Mem<()>
    ensures { OnOk result (string_bytes out.new ≡ string_bytes out.old ++ header_text sizes) }
{
    let (nodes, voters, members) = sizes;
    out.push_str("trace ")?;
    write_number(u64::from(nodes), out)?;
    out.push_str(" ")?;
    write_number(u64::from(voters), out)?;
    out.push_str(" ")?;
    write_number(u64::from(members), out)?;
    out.push_str("\n")
}

fn write_entry(event: &Event, reply: &Reply, out: &mut String) -> Mem<()>
    ensures { OnOk result (string_bytes out.new ≡ string_bytes out.old ++ entry_text (event.now, reply.now)) }
{
    write_event(event, out)?;
    push_reply(event.line, reply, out)
}

fn write_event(event: &Event, out: &mut String) -> Mem<()>
    ensures { OnOk result (string_bytes out.new ≡ string_bytes out.old ++ event_text event.now) }
{
    out.push_str("event ")?;
    write_number(u64::from(event.line), out)?;
    out.push_str(" ")?;
    write_failed(event.failed, out)?;
    out.push_str(" ")?;
    out.push_str(kept_word(event.kept))?;
    out.push_str(" ")?;
    write_command(&event.command, out)?;
    out.push_str("\n")
}

fn write_failed(failed: Option<u32>, out: &mut String) -> Mem<()>
    ensures { OnOk result (string_bytes out.new ≡ string_bytes out.old ++ failed_word failed) }
{
    match failed {
        Some(store) => write_number(u64::from(store), out),
        None => out.push_str("-"),
    }
}

fn kept_word(kept: bool) -> &'static str
    ensures { result.now ≡ kept_word kept }
{
    if kept { "1" } else { "0" }
}
