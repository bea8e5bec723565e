// Which wants an event meets.
ghost use Rattle.std.specs.Prelude.{◌≡◌, ◌↔◌, ◌<◌, ℕ, length, IfOk, IsTrue, Some, slice_get, string_bytes};
ghost use Rattle.rs_optime.specs.Membership.{In};
ghost use Rattle.set_model.specs.declared.reply.Reply.{Reply as ModelReply};
ghost use Rattle.explore_words.specs.declared.question.Want.{Want as Wanted};
ghost use Rattle.transcript.specs.Replies.{line_text};
ghost use Rattle.question_laws.specs.Meeting.{OnRoute, begins as reply_begins, is_of};
ghost use Rattle.explore_steps.specs.Causes.{IsMetBy, IsOwnWanted, IsTakenWanted, IsWantedBy};
ghost use Rattle.explore_steps.specs.Deals.{cause_of};

use crate::commands::{is_at_first, same_but_node, same_command};
use bson_doc::{Mem, Text};
use explore_tables::number_of;
use explore_words::{Question, Route, Want, WantedEvent};
use repl_msg::Message;
use set_model::{Command, Reply};
use std::alloc::Global;
use transcript::set_reply;

/// What an event is: a command of a node's own, or the delivery of a message.
#[derive(Clone, Copy)]
pub enum Cause<'a> {
    Own(&'a Command),
    Taken(&'a Message),
}

/// The places of the wants that an event with this reply meets.
pub fn met_wants(
    alloc: Global,
    question: &Question,
    cause: Cause<'_>,
    reply: &Reply,
) -> Mem<Vec<u32>>
    ensures met { IfOk result (λ places.
        (place : ℕ) (want : Wanted) → slice_get question.now.wants place ≡ Some want
        → In place places.items ↔ IsMetBy (cause_of cause.entry) want reply.now) }
    ensures within { IfOk result (λ places.
        (place : ℕ) → In place places.items → place < length question.now.wants) }
{
    let mut places = Vec::new(alloc);
    let line = reply_line(alloc, reply)?;
    let wants = question.wants.as_slice();
    for place in 0..wants.len() {
        if is_met(&wants[place], cause, &line) {
            places.push(number_of(place)?)?;
        }
    }
    Ok(places)
}

/// Whether an event meets a want, with this line for its reply.
fn is_met(want: &Want, cause: Cause<'_>, line: &str) -> bool
    ensures { (reply : ModelReply) → line.now ≡ line_text (0, reply)
        → IsTrue result ↔ IsMetBy (cause_of cause.entry) want.now reply }
{
    match want {
        Want::Event(wanted, text) => is_wanted(wanted, cause) && begins(line, text),
        Want::Seen(_) => false,
    }
}

/// Whether the event is one that a want looks for.
fn is_wanted(wanted: &WantedEvent, cause: Cause<'_>) -> bool
    ensures { IsTrue result ↔ IsWantedBy wanted.now (cause_of cause.entry) }
{
    match cause {
        Cause::Own(command) => is_own_wanted(wanted, command),
        Cause::Taken(message) => is_taken_wanted(wanted, message),
    }
}

fn is_own_wanted(wanted: &WantedEvent, command: &Command) -> bool
    ensures { IsTrue result ↔ IsOwnWanted wanted.now command.now }
{
    match wanted {
        WantedEvent::Delivery(_) => false,
        WantedEvent::Heartbeat(route) => match command {
            Command::Heartbeat { node, to } => is_on(*route, *node, *to),
            _ => false,
        },
        WantedEvent::Report(route) => match command {
            Command::Report { node, to } => is_on(*route, *node, *to),
            _ => false,
        },
        WantedEvent::Common(route) => match command {
            Command::Common { node, to } => is_on(*route, *node, *to),
            _ => false,
        },
        WantedEvent::Command(Some(_), asked) => same_command(command, asked),
        WantedEvent::Command(None, asked) => { is_at_first(asked) && same_but_node(command, asked) }
    }
}

fn is_taken_wanted(wanted: &WantedEvent, message: &Message) -> bool
    ensures { IsTrue result ↔ IsTakenWanted wanted.now message.now }
{
    match wanted {
        WantedEvent::Delivery(route) => is_on(*route, message.from, message.to),
        _ => false,
    }
}

fn is_on(route: Route, from: u32, to: u32) -> bool
    ensures { IsTrue result ↔ OnRoute route from to }
{
    is_or_any(route.from, from) && is_or_any(route.to, to)
}

fn is_or_any(wanted: Option<u32>, number: u32) -> bool
    ensures { result ≡ is_of wanted number }
{
    match wanted {
        Some(wanted) => wanted == number,
        None => true,
    }
}

/// The line of a reply, as a transcript has it for line 0.
pub(crate) fn reply_line(alloc: Global, reply: &Reply) -> Mem<String>
    ensures { IfOk result (λ line. string_bytes line ≡ line_text (0, reply.now)) }
{
    let mut line = String::new(alloc);
    set_reply(0, reply, &mut line)?;
    Ok(line)
}

/// Whether the reply of such a line begins with a text: what stands between `0: ` and the line end.
pub(crate) fn begins(line: &str, text: &Text) -> bool
    ensures { (reply : ModelReply) → line.now ≡ line_text (0, reply) → result ≡ reply_begins reply text.now }
{
    let bytes = line.as_bytes();
    if bytes.len() < 4 {
        return false;
    }
    bytes[3..bytes.len() - 1].starts_with(text.as_str().as_bytes())
}
