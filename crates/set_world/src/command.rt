ghost use Rattle.std.specs.Prelude.{◌≡◌, Contains, true, IfNone, IfSome};
ghost use Rattle.set_model.specs.Limits.{IsSoundWrite, write_of};
ghost use Rattle.set_model.specs.World.{World, is_delivery, nothing, takes, task};

use crate::pool::Pool;
use repl_msg::Message;
use set_model::Command;

/// The message that a command delivers; none where no such message was sent.
pub(crate) fn delivered<'a>(pool: &'a Pool, command: &Command) -> Option<&'a Message>
    ensures some { IfSome result (λ message. (world : World) → world.messages ≡ pool.now.messages
        → is_delivery command.now ≡ true → task world command.now ≡ takes message.now) }
    ensures sent { IfSome result (λ message. Contains pool.now.messages message.now) }
    ensures none { IfNone result ((world : World) → world.messages ≡ pool.now.messages
        → is_delivery command.now ≡ true → task world command.now ≡ nothing) }
{
    match command {
        Command::Deliver { message } => pool.get(*message),
        Command::DeliverLatest { from, to } => pool.latest(*from, *to),
        _ => None,
    }
}

/// The documents of a command are sound at every level: a fact for proofs, which costs nothing.
pub(crate) fn recall_sound_write(command: &Command)
    ensures { IfSome (write_of command.now) IsSoundWrite }
{
    match command {
        Command::Insert { document, .. } => document.recall_sound(),
        Command::Replace { id, document, .. } => {
            id.recall_sound();
            document.recall_sound();
        }
        Command::Update { id, operators, .. } => {
            id.recall_sound();
            operators.recall_sound();
        }
        Command::Delete { id, .. } => id.recall_sound(),
        Command::Retry { op, .. } | Command::Begin { op, .. } => op.recall_sound(),
        _ => {}
    }
}
