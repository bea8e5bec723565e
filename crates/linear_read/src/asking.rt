// One command, and the message that it sends.
ghost use Rattle.std.specs.Prelude.{◌≡◌, true};
ghost use Rattle.set_model.specs.Limits.{is_for};
ghost use Rattle.set_world.specs.Stepper.{IsDefined};
ghost use Rattle.linear_read.specs.Going.{Went};
ghost use Rattle.linear_read.specs.Points.{carries, delivers};
ghost use Rattle.linear_read.specs.Talk.{asks, tells};

use crate::shown::message_sent;
use set_model::{Command, Reply};
use set_world::{StepError, Stepper};
use std::sync::Wait;
use std::thread::Threads;

/// The events of a read aren't on a line of a script.
const NO_LINE: u32 = 0;

/// Does a command.
pub(crate) fn ask<R: Threads + Wait + Sync, S: Stepper>(
    rt: &R,
    set: &mut S,
    command: Command,
) -> Result<Reply, StepError>
    requires { is_for (S.sizes set.old).nodes command ≡ true }
    ensures went { Went S.is_alone S.sizes S.known S.own S.stays S.is_whole set.old set.new
        (asks command tells) result }
    ensures stays { S.stays set.old set.new }
    ensures defined { IsDefined (S.sizes set.new) (S.known set.new) }
{
    set.step(rt, NO_LINE, &command)
}

/// Delivers a message, if one was sent.
pub(crate) fn deliver<R: Threads + Wait + Sync, S: Stepper>(
    rt: &R,
    set: &mut S,
    message: Option<u64>,
) -> Result<Option<Reply>, StepError>
    ensures { Went S.is_alone S.sizes S.known S.own S.stays S.is_whole set.old set.new
        (delivers message) result }
{
    let Some(message) = message else {
        return Ok(None);
    };
    let reply = ask(rt, set, Command::Deliver { message })?;
    Ok(Some(reply))
}

/// Does a command, and delivers the message that it sent.
pub(crate) fn carry<R: Threads + Wait + Sync, S: Stepper>(
    rt: &R,
    set: &mut S,
    command: Command,
) -> Result<Option<Reply>, StepError>
    requires { is_for (S.sizes set.old).nodes command ≡ true }
    ensures { Went S.is_alone S.sizes S.known S.own S.stays S.is_whole set.old set.new
        (carries command) result }
{
    let message = message_sent(&ask(rt, set, command)?);
    deliver(rt, set, message)
}
