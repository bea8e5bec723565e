// What a line says.
ghost use Rattle.std.specs.Prelude.{◌≡◌, ◌≤◌, true, IfOk, IfSome, OnOk};
ghost use Rattle.fault_script.specs.Lines.{MOST_LINES};
ghost use Rattle.checker_machine.specs.Plain.{is_reading};
ghost use Rattle.set_model.specs.Limits.{is_for};
ghost use Rattle.play.specs.Lines.{Says, command_said, lets_disk_fail, line_said, said, without_disks};

use crate::lines::{is_passed_over, text_of};
use crate::rule::{LineRule, PlayError};
use fault_script::line_feed;
use script_words::{Keyword, command, keyword};
use set_model::Command;
use std::alloc::Global;

/// The command of a line that has this number, in a set of so many nodes; none, where the line is empty or a
/// comment.
#[tactic(auto, unfolding(crate::specs::Lines::said))]
pub(crate) fn said(
    alloc: Global,
    nodes: u32,
    number: u32,
    line: &[u8],
) -> Result<Option<Command>, PlayError>
    ensures said { Says (λ command. command) result (said nodes number line.now) }
    ensures fits { IfOk result (λ said. IfSome said (λ command. is_for nodes command ≡ true)) }
    ensures few { OnOk result (number ≤ MOST_LINES) }
{
    let text = line_said(number, line)?;
    if is_passed_over(text) {
        return Ok(None);
    }
    let command = command_said(alloc, nodes, text)?;
    Ok(Some(command))
}

/// The text of a line.
pub(crate) fn line_said(number: u32, line: &[u8]) -> Result<&str, PlayError>
    ensures said { Says (λ text. text.now) result (line_said number line.now) }
    ensures same { IfOk result (λ text. text.now ≡ line.now) }
    ensures few { OnOk result (number ≤ MOST_LINES) }
{
    if line_feed(line).is_some() {
        return Err(PlayError::Rule(LineRule::LineFeed));
    }
    Ok(text_of(number, line)?)
}

/// The command that a text spells.
#[tactic(auto, unfolding(crate::specs::Lines::command_said))]
fn command_said(alloc: Global, nodes: u32, text: &str) -> Result<Command, PlayError>
    ensures said { Says (λ command. command) result (command_said nodes text.now) }
    ensures fits { IfOk result (λ command. is_for nodes command ≡ true) }
{
    let (keyword, left) = keyword(text)?;
    match keyword {
        Keyword::Par | Keyword::Thread | Keyword::End => Err(PlayError::Rule(LineRule::NoBlocks)),
        Keyword::Command(verb) => without_disks(command(alloc, nodes, verb, left)?),
    }
}

/// A command that a set without disks can do.
fn without_disks(command: Command) -> Result<Command, PlayError>
    ensures said { Says (λ command. command) result (without_disks command) }
    ensures same { IfOk result (λ same. same ≡ command) }
{
    if lets_disk_fail(&command) {
        return Err(PlayError::Rule(LineRule::NoDisks));
    }
    Ok(command)
}

fn lets_disk_fail(command: &Command) -> bool
    ensures { result ≡ lets_disk_fail command.now }
{
    matches!(command, Command::DiskFail { .. })
}

/// Whether a command only looks at something.
pub(crate) fn is_reading(command: &Command) -> bool
    ensures { result ≡ is_reading command.now }
{
    matches!(
        command,
        Command::Read { .. }
            | Command::Dump { .. }
            | Command::Log { .. }
            | Command::State { .. }
            | Command::Rolled { .. }
    )
}
