// A command alone.
ghost use Rattle.std.specs.Prelude.{◌≡◌, true, IfOk};
ghost use Rattle.script_words.specs.Commands.{command_at};
ghost use Rattle.script_words.specs.Gives.{Gives};
ghost use Rattle.set_model.specs.Limits.{is_for};

use script_words::{LineError, command, command_verb};
use set_model::Command;
use std::alloc::Global;

/// The command that a line of a script spells, in a set of this size, or the first rule that it breaks.
/// `set`, `par`, `thread` and `end` are unknown commands here, and so are a comment and an empty text. The
/// text may be longer than a line of a script.
#[tactic(auto, unfolding(script_words::specs::Commands::command_at))]
pub fn parse_command(alloc: Global, text: &str, nodes: u32) -> Result<Command, LineError>
    ensures read { Gives (λ command. command) result (command_at nodes text.now) }
    ensures fits { IfOk result (λ command. is_for nodes command ≡ true) }
{
    let (verb, left) = command_verb(text)?;
    command(alloc, nodes, verb, left)
}
