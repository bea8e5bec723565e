// The text of replies.
ghost use Rattle.std.specs.Prelude.{◌≡◌, ◌++◌, true, codes, OnOk, OnErr, string_bytes};
ghost use Rattle.std.specs.Fmt.{decimal};
ghost use Rattle.transcript.specs.Kinds.{is_of_node, is_of_protocol};
ghost use Rattle.transcript.specs.Replies.{reply_text, line_text};

use crate::entries::{write_documents, write_entries};
use crate::lost::write_rolled;
use crate::pieces::{write_at, write_counted, write_counted_after, write_number, write_pair};
use crate::refusal::{ignored_name, vote_refusal_name, write_refusal};
use crate::state::{write_config, write_points, write_state};
use bson_doc::Mem;
use doc_text::write_document;
use set_model::Reply;
use std::fmt::Write;

/// Appends the reply to the command of a line, with its line end. Out of memory leaves `out` as it was.
pub fn write_reply(line: u32, reply: &Reply, out: &mut String) -> Mem<()>
    ensures ok { OnOk result (string_bytes out.new ≡ string_bytes out.old ++ line_text (line, reply.now)) }
    ensures err { OnErr result (string_bytes out.new ≡ string_bytes out.old) }
{
    let mut text = String::new(*out.allocator());
    set_reply(line, reply, &mut text)?;
    out.push_str(&text)
}

/// Writes that line into `text` in place of what was there, reusing its memory. If memory runs out, `text` is
/// of no use.
pub fn set_reply(line: u32, reply: &Reply, text: &mut String) -> Mem<()>
    ensures { OnOk result (string_bytes text.new ≡ line_text (line, reply.now)) }
{
    text.clear();
    push_reply(line, reply, text)
}

/// Appends that line. If memory runs out, a part may have been appended.
pub fn push_reply(line: u32, reply: &Reply, out: &mut String) -> Mem<()>
    ensures { OnOk result (string_bytes out.new ≡ string_bytes out.old ++ line_text (line, reply.now)) }
{
    write_number(u64::from(line), out)?;
    out.push_str(": ")?;
    write_text(reply, out)?;
    out.push_str("\n")
}

/// Appends a reply. Those about documents and writes are here.
fn write_text(reply: &Reply, out: &mut String) -> Mem<()>
    ensures { OnOk result (string_bytes out.new ≡ string_bytes out.old ++ reply_text reply.now) }
{
    match reply {
        Reply::Written(at) => write_at("written ", *at, out),
        Reply::Begun(at) => write_at("begun ", *at, out),
        Reply::Committed(at) => write_at("committed ", *at, out),
        Reply::Aborted => out.push_str("aborted"),
        Reply::NoMatch => out.push_str("matched 0"),
        Reply::Unchanged => out.push_str("unchanged"),
        Reply::Acked(at) => write_at("acked ", *at, out),
        Reply::Found(found) => {
            out.push_str("found ")?;
            write_document(found, out)
        }
        Reply::Missing => out.push_str("missing"),
        Reply::Documents(documents) => write_documents(documents.as_slice(), out),
        Reply::Rolled(lost) => write_rolled(lost.as_slice(), out),
        Reply::Entries(entries) => write_entries(entries.as_slice(), out),
        Reply::Refused(refusal) => {
            out.push_str("refused ")?;
            write_refusal(*refusal, out)
        }
        Reply::State { .. }
        | Reply::RolledBack { .. }
        | Reply::Applied { .. }
        | Reply::Flushed { .. }
        | Reply::Checkpoint(_)
        | Reply::Config { .. }
        | Reply::Down
        | Reply::Up(_)
        | Reply::Armed
        | Reply::Clock(_) => write_node(reply, out),
        _ => write_protocol(reply, out),
    }
}

/// Appends a reply about an election or a message.
fn write_protocol(reply: &Reply, out: &mut String) -> Mem<()>
    requires { is_of_protocol reply.now ≡ true }
    ensures { OnOk result (string_bytes out.new ≡ string_bytes out.old ++ reply_text reply.now) }
{
    match reply {
        Reply::Won(term) => write!(out, "won {term}"),
        Reply::Primary { term, noop } => write_counted("primary ", *term, " noop ", *noop, out),
        Reply::Candidate { term, first, count } => {
            write_asked("candidate ", *term, *first, *count, out)
        }
        Reply::DryRun { term, first, count } => write_asked("dryrun ", *term, *first, *count, out),
        Reply::Secondary => out.push_str("secondary"),
        Reply::Sent(message) => write!(out, "sent m{message}"),
        Reply::SentTo { message, source } => write_pair("sent m", *message, " to n", *source, out),
        Reply::Replied(message) => write!(out, "replied m{message}"),
        Reply::Votes { yes, needed } => write_pair("votes ", u64::from(*yes), " of ", *needed, out),
        Reply::VoteRefused(reason) => {
            out.push_str("vote refused ")?;
            out.push_str(vote_refusal_name(*reason))
        }
        Reply::DryVotes { yes, needed } => {
            write_pair("dry votes ", u64::from(*yes), " of ", *needed, out)
        }
        Reply::Heard => out.push_str("heard"),
        Reply::Took { count, last } => write_counted("took ", *count, " last ", *last, out),
        Reply::Counted(commit) => write_at("counted commit ", *commit, out),
        Reply::Ignored(reason) => {
            out.push_str("ignored ")?;
            out.push_str(ignored_name(*reason))
        }
        _ => unreachable!(),
    }
}

/// Appends a reply about what a node stores, or about the node itself.
fn write_node(reply: &Reply, out: &mut String) -> Mem<()>
    requires { is_of_node reply.now ≡ true }
    ensures { OnOk result (string_bytes out.new ≡ string_bytes out.old ++ reply_text reply.now) }
{
    match reply {
        Reply::State {
            role,
            term,
            vote,
            last,
            durable,
            applied,
            commit,
            config,
            rollback,
        } => {
            write_state(*role, *term, *vote, out)?;
            write_points(*last, *durable, *applied, *commit, out)?;
            write_config(*config, *rollback, out)
        }
        Reply::RolledBack { to, removed } => write_counted_after(
            "rolled back to ",
            *to,
            " removed ",
            *removed,
            out,
        ),
        Reply::Applied { count, to } => write_counted("applied ", *count, " to ", *to, out),
        Reply::Flushed { count, to } => write_counted("flushed ", *count, " to ", *to, out),
        Reply::Checkpoint(at) => write_at("checkpoint ", *at, out),
        Reply::Config { term, version } => write_pair("config ", *term, "/", *version, out),
        Reply::Down => out.push_str("down"),
        Reply::Up(last) => write_at("up last ", *last, out),
        Reply::Armed => out.push_str("armed"),
        Reply::Clock(seconds) => write!(out, "clock {seconds}"),
        _ => unreachable!(),
    }
}

/// What a node asks for, in which term, the first message's number, and how many were sent.
fn write_asked(words: &str, term: u64, first: u64, count: u32, out: &mut String) -> Mem<()>
    ensures { OnOk result (string_bytes out.new ≡ string_bytes out.old
        ++ (words.now ++ decimal term ++ codes " sent m" ++ decimal first ++ codes " " ++ decimal count)) }
{
    out.push_str(words)?;
    write!(out, "{term}")?;
    write_pair(" sent m", first, " ", count, out)
}
