// Checks a trace on its own.
ghost use Rattle.std.specs.Prelude.{◌≡◌, ◌+◌, ◌-◌, ◌<◌, ◌^◌, length, true, string_bytes, IfOk, IfErr, IfSome, OnOk};
ghost use Rattle.checker_machine.specs.Reached.{IsReached};
ghost use Rattle.set_model.specs.Limits.{IsSoundWrite, is_for, write_of};
ghost use Rattle.set_model.specs.Run.{AreSizes};
ghost use Rattle.run_checker.specs.Checking.{Done, DoneLine, Goes, Reads, RulesOut, Says, Shows, Stops, TellsSome, after_text, checked, event_or, event_told, if_fits, number_after, set_of, stands_at, told, told_one};
ghost use Rattle.run_checker.specs.Reading.{event_in};

use crate::lines::next_line;
use crate::reading::{read_event, read_header};
use crate::sizes::Sizes;
use checker_machine::{Machine, StepError};
use fault_script::CommandError;
use safety_laws::{numbers_stay_small, safe};
use set_model::{Command, Event};
use std::alloc::{AllocError, Global};
use transcript::set_reply;

/// After this many events a number of the machine could overflow its type.
const MOST_EVENTS: u64 = 4_294_967_294;

/// Why bytes aren't a trace, each with the number of the line that shows it, counted from 1. The first one
/// met decides.
#[derive(Clone, Copy, Debug, PartialEq, Eq)]
pub enum CheckError {
    /// The first line isn't a header.
    BadHeader(u64),
    /// A line in an event's place isn't an event.
    BadEvent(u64),
    /// The event doesn't fit the world that it meets.
    NoFit(u64),
    /// What follows an event isn't its reply: the first line that differs, or the next one if the bytes end
    /// after a whole line or the event itself.
    OtherReply(u64),
    /// Memory ran out, or there are more than 4,294,967,294 events.
    Memory,
}

impl From<AllocError> for CheckError {
    ghost use Rattle.run_checker.specs.declared.checking.CheckError.TheVariants.{Memory};

    ghost from_gives = { λ _ error. error ≡ Memory };

    fn from(_: AllocError) -> Self {
        CheckError::Memory
    }
}

/// Whether these bytes are a trace, and of how many events.
///
/// # Errors
/// Those of `CheckError`, each exactly if it is the first one met.
pub fn check(alloc: Global, bytes: &[u8]) -> Result<u64, CheckError>
    ensures ok { IfOk result (λ count. Shows count bytes.now) }
    ensures err { IfErr result (λ why. RulesOut why bytes.now) }
    ensures says { Says (λ count. count) result (checked bytes.now) }
{
    safe();
    let Some((sizes, rest)) = read_header(bytes) else {
        return Err(CheckError::BadHeader(1));
    };
    told(alloc, sizes, rest)
}

/// How many events follow the header of a set.
fn told(alloc: Global, sizes: Sizes, bytes: &[u8]) -> Result<u64, CheckError>
    requires { AreSizes (set_of sizes) }
    ensures tells { IfOk result (λ count. TellsSome sizes count bytes.now) }
    ensures says { Says (λ count. count) result (told sizes bytes.now) }
{
    numbers_stay_small();
    let (nodes, voters, members) = sizes;
    let mut machine = Machine::open(alloc, nodes, voters, members)?;
    let mut text = String::new(alloc);
    let (mut rest, mut line, mut count) = (bytes, 2, 0);
    while !rest.is_empty() {
        if count == MOST_EVENTS {
            return Err(CheckError::Memory);
        }
        (rest, line) = told_one(nodes, &mut machine, rest, line, &mut text)?;
        count += 1;
    }
    Ok(count)
}

/// Does the event of the first line, whose number is `line`, and skips its reply. The result is what follows
/// it, and the number of the next line. Uses the memory of `text`.
fn told_one<'a>(
    nodes: u32,
    machine: &mut Machine,
    bytes: &'a [u8],
    line: u64,
    text: &mut String,
) -> Result<(&'a [u8], u64), CheckError>
    requires reached { IsReached machine.old }
    requires nodes { nodes ≡ length machine.old.nodes }
    requires some { 0 < length bytes.now }
    requires room { line + length bytes.now < 2 ^ 64 }
    ensures ok { IfOk result
        (λ left. Goes nodes machine.old line bytes.now machine.new left.0.now left.1) }
    ensures err { IfErr result (λ why. Stops why (told_one nodes machine.old line bytes.now)) }
{
    let (own, after) = next_line(bytes);
    done_line(nodes, machine, own, line, text)?;
    let Some(after) = after else {
        return Err(CheckError::OtherReply(line + 1));
    };
    passed(text.as_bytes(), after, line + 1)
}

/// Does the event of the line of this number, and writes its reply in place of `text`.
fn done_line(
    nodes: u32,
    machine: &mut Machine,
    own: &[u8],
    line: u64,
    text: &mut String,
) -> Result<(), CheckError>
    requires reached { IsReached machine.old }
    requires nodes { nodes ≡ length machine.old.nodes }
    ensures ok { OnOk result (DoneLine nodes machine.old own.now machine.new (string_bytes text.new)) }
    ensures err { IfErr result (λ why. Stops why (event_told nodes machine.old line own.now)) }
{
    let event = event_of(*text.allocator(), nodes, own, line)?;
    step(machine, &event, line, text)
}

/// The event of the line of this number.
fn event_of(alloc: Global, nodes: u32, own: &[u8], line: u64) -> Result<Event, CheckError>
    ensures event { Says (λ event. event) result (event_or line (event_in nodes own.now)) }
    ensures command { IfOk result (λ event. is_for nodes event.command ≡ true) }
{
    match read_event(alloc, nodes, own) {
        Ok(event) => Ok(event),
        Err(CommandError::Rule(_)) => Err(CheckError::BadEvent(line)),
        Err(CommandError::Memory) => Err(CheckError::Memory),
    }
}

/// Does an event, of the line of this number, and writes its reply in place of `text`.
fn step(
    machine: &mut Machine,
    event: &Event,
    line: u64,
    text: &mut String,
) -> Result<(), CheckError>
    requires reached { IsReached machine.old }
    requires command { is_for (length machine.old.nodes) event.now.command ≡ true }
    ensures ok { OnOk result (Done machine.old event.now machine.new (string_bytes text.new)) }
    ensures err { IfErr result (λ why. Stops why (if_fits line machine.old event.now)) }
{
    recall_sound_write(&event.command);
    let reply = match machine.step(event) {
        Ok(reply) => reply,
        Err(StepError::NoFit) => return Err(CheckError::NoFit(line)),
        Err(StepError::Memory) => return Err(CheckError::Memory),
    };
    set_reply(event.line, &reply, text)?;
    Ok(())
}

/// Skips a reply, whose first line has this number: what follows it, and the number of the next line.
fn passed<'a>(reply: &[u8], rest: &'a [u8], line: u64) -> Result<(&'a [u8], u64), CheckError>
    requires { line + length rest.now < 2 ^ 64 }
    ensures { Reads (λ x. (x.0.now, x.1)) result (after_text line reply.now rest.now) }
{
    let mut next = line;
    for place in 0..reply.len() {
        if !stands_at(reply[place], place, rest) {
            return Err(CheckError::OtherReply(next));
        }
        next = number_after(reply[place], next);
    }
    Ok((&rest[reply.len()..], next))
}

/// Whether this byte is at a place.
fn stands_at(byte: u8, place: usize, bytes: &[u8]) -> bool
    ensures { result ≡ stands_at byte place bytes.now }
{
    place < bytes.len() && byte == bytes[place]
}

/// The number of the line that has the next byte.
fn number_after(byte: u8, line: u64) -> u64
    requires { line < 2 ^ 64 - 1 }
    ensures { result ≡ number_after byte line }
{
    if byte == b'\n' { line + 1 } else { line }
}

/// The documents of a command are sound at every level: a fact for proofs, which costs nothing.
pub fn recall_sound_write(command: &Command)
    ensures { IfSome (write_of command.now) IsSoundWrite }
{
    match command {
        Command::Insert { document, .. } => document.recall_sound(),
        Command::Replace { id, document, .. } => {
            id.recall_sound();
            document.recall_sound();
        }
        Command::Update { id, operators, .. } => {
            id.recall_sound();
            operators.recall_sound();
        }
        Command::Delete { id, .. } => id.recall_sound(),
        Command::Retry { op, .. } | Command::Begin { op, .. } => op.recall_sound(),
        _ => {}
    }
}
