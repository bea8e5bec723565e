// Reads the lines of a trace.
ghost use Rattle.std.specs.Prelude.{◌≡◌, true, IfOk, MatchOption, None, Some};
ghost use Rattle.std.specs.Option.{option_copied};
ghost use Rattle.script_words.specs.Gives.{Gives, Reads};
ghost use Rattle.set_model.specs.Limits.{is_for};
ghost use Rattle.run_checker.specs.Reading.{without_first, event_at, event_in, failed_at, failed_of, header_at, header_in, header_of};

use crate::lines::{next_line, text_of};
use crate::sizes::Sizes;
use fault_script::{CommandError, ScriptRule, parse_command};
use script_words::{Left, MAX_NODES, Read, most_voters, number, number_of, text, word};
use set_model::Event;
use std::alloc::Global;

/// The sizes that a trace's header names, and what follows the header. None if the bytes don't begin with
/// one.
pub fn read_header(bytes: &[u8]) -> Option<(Sizes, &[u8])>
    ensures { MatchOption result (header_in bytes.now ≡ None)
        (λ read. header_in bytes.now ≡ Some (read.0, read.1.now)) }
{
    let (line, rest) = next_line(bytes);
    match (header_of(line), rest) {
        (Ok(sizes), Some(rest)) => Some((sizes, rest)),
        _ => None,
    }
}

#[tactic(auto, unfolding(crate::specs::Reading::header_of))]
fn header_of(line: &[u8]) -> Result<Sizes, ScriptRule>
    ensures { result ≡ header_of line.now }
{
    header(text_of(line)?)
}

/// `trace NODES VOTERS MEMBERS`
#[tactic(auto, unfolding(crate::specs::Reading::header_at))]
fn header(text: &str) -> Result<Sizes, ScriptRule>
    ensures { result ≡ header_at text.now }
{
    let (first, left) = word(Some(text))?;
    let left = without_first("trace", first, left)?;
    let (nodes, left) = number(left, 1, MAX_NODES)?;
    let (voters, left) = number(left, 1, most_voters(nodes))?;
    let (members, left) = number(left, voters, nodes)?;
    match left {
        None => Ok((nodes, voters, members)),
        Some(_) => Err(ScriptRule::WordCount),
    }
}

/// What is left after a line's first word, which has to be this name.
fn without_first<'a>(name: &str, first: &str, left: Left<'a>) -> Result<Left<'a>, ScriptRule>
    ensures { Reads option_copied result (without_first name.now (first.now, option_copied left.entry)) }
{
    if first == name {
        Ok(left)
    } else {
        Err(ScriptRule::UnknownCommand)
    }
}

/// The event that a line of a trace is, in a set of this size, or the first rule that the line breaks.
#[tactic(auto, unfolding(crate::specs::Reading::event_in))]
pub fn read_event(alloc: Global, nodes: u32, line: &[u8]) -> Result<Event, CommandError>
    ensures read { Gives (λ event. event) result (event_in nodes line.now) }
    ensures fits { IfOk result (λ event. is_for nodes event.command ≡ true) }
{
    event(alloc, nodes, text_of(line)?)
}

/// `event LINE FAILED KEPT COMMAND`
#[tactic(auto, unfolding(crate::specs::Reading::event_at))]
fn event(alloc: Global, nodes: u32, line: &str) -> Result<Event, CommandError>
    ensures read { Gives (λ event. event) result (event_at nodes line.now) }
    ensures fits { IfOk result (λ event. is_for nodes event.command ≡ true) }
{
    let (first, left) = word(Some(line))?;
    let left = without_first("event", first, left)?;
    let (line, left) = number(left, 0, u32::MAX)?;
    let (failed, left) = failed(left)?;
    let (kept, left) = number(left, 0, 1)?;
    let command = parse_command(alloc, text(left)?, nodes)?;
    Ok(Event {
        command,
        line,
        failed,
        kept: kept == 1,
    })
}

/// The store that failed, or none.
#[tactic(auto, unfolding(crate::specs::Reading::failed_at))]
fn failed(left: Left<'_>) -> Read<'_, Option<u32>>
    ensures { Reads (λ x. (x.0, option_copied x.1)) result (failed_at (option_copied left.entry)) }
{
    let (word, rest) = word(left)?;
    Ok((failed_of(word)?, rest))
}

/// `-`, or a number
fn failed_of(word: &str) -> Result<Option<u32>, ScriptRule>
    ensures { result ≡ failed_of word.now }
{
    if word == "-" {
        return Ok(None);
    }
    let store = number_of(
        word,
        0,
        u32::MAX,
        ScriptRule::BadWord,
        ScriptRule::BadNumber,
    )?;
    Ok(Some(store))
}
