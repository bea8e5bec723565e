// What is written of a set that is played.
ghost use Rattle.std.specs.Prelude.{◌≡◌, ◌++◌, OnOk, drop, string_bytes};
ghost use Rattle.play.specs.Script.{opening_text, set_text};
ghost use Rattle.play.specs.Sent.{ends_text, kind_name, message_line, message_lines};

use bson_doc::Mem;
use repl_msg::{Body, Message};
use run_checker::Sizes;
use transcript::write_number;

/// Appends a script's lines up to its `set` line, which has the number `first`.
pub(crate) fn write_opening(sizes: Sizes, first: u32, out: &mut String) -> Mem<()>
    ensures { OnOk result (string_bytes out.new ≡ string_bytes out.old ++ opening_text sizes first) }
{
    for _ in 0..first.saturating_sub(1) {
        out.push_str("\n")?;
    }
    write_set(sizes, out)
}

fn write_set(sizes: Sizes, out: &mut String) -> Mem<()>
    ensures { OnOk result (string_bytes out.new ≡ string_bytes out.old ++ set_text sizes) }
{
    let (nodes, voters, members) = sizes;
    out.push_str("set ")?;
    write_number(u64::from(nodes), out)?;
    out.push_str(" ")?;
    write_number(u64::from(voters), out)?;
    out.push_str(" ")?;
    write_number(u64::from(members), out)?;
    out.push_str("\n")
}

/// Appends messages, from that of this number on.
pub(crate) fn write_messages(messages: &[Message], first: u64, out: &mut String) -> Mem<()>
    ensures { OnOk result (string_bytes out.new
        ≡ string_bytes out.old ++ message_lines first (drop first messages.now)) }
{
    for number in first as usize..messages.len() {
        write_message(number as u64, &messages[number], out)?;
    }
    Ok(())
}

fn write_message(number: u64, message: &Message, out: &mut String) -> Mem<()>
    ensures { OnOk result (string_bytes out.new
        ≡ string_bytes out.old ++ message_line number message.now) }
{
    out.push_str("m")?;
    write_number(number, out)?;
    write_ends(message, out)?;
    out.push_str(" ")?;
    write_number(message.term, out)?;
    out.push_str(" ")?;
    out.push_str(kind_name(&message.body))?;
    out.push_str("\n")
}

fn write_ends(message: &Message, out: &mut String) -> Mem<()>
    ensures { OnOk result (string_bytes out.new ≡ string_bytes out.old ++ ends_text message.now) }
{
    out.push_str(" n")?;
    write_number(u64::from(message.from), out)?;
    out.push_str(" n")?;
    write_number(u64::from(message.to), out)
}

/// The name of what a message says.
fn kind_name(body: &Body) -> &'static str
    ensures { result.now ≡ kind_name body.now }
{
    match body {
        Body::Fetch { .. } => "Fetch",
        Body::FetchReply(_) => "FetchReply",
        Body::Report { .. } => "Report",
        Body::VoteAsk(_) => "VoteAsk",
        Body::VoteReply { .. } => "VoteReply",
        Body::Heartbeat(_) => "Heartbeat",
        Body::HeartbeatReply(_) => "HeartbeatReply",
        Body::CommonAsk { .. } => "CommonAsk",
        Body::CommonReply { .. } => "CommonReply",
    }
}
