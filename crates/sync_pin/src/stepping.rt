// One command without a line, in a set that no one else steps.
ghost use Rattle.std.specs.Prelude.{◌≡◌, ◌≢◌, Err, IfErr, IfOk, true};
ghost use Rattle.set_model.specs.Limits.{is_for};
ghost use Rattle.set_world.specs.Stepper.{IsDefined};
ghost use Rattle.sync_pin.specs.Asking.{Tells};

use set_model::{Command, Reply};
use set_world::Stepper;
use std::sync::Wait;
use std::thread::Threads;
use sync_words::SyncStop;

/// The events aren't on a line of a script.
const NO_LINE: u32 = 0;

/// Does one command. A full history counts as out of memory.
pub(crate) fn step<R: Threads + Wait + Sync, S: Stepper>(
    rt: &R,
    set: &mut S,
    command: &Command,
) -> Result<Reply, SyncStop>
    requires alone { S.is_alone ≡ true }
    requires command { is_for (S.sizes set.old).nodes command.now ≡ true }
    ensures tells { IfOk result (λ told. Tells (S.sizes set.old) (S.known set.old) (S.known set.new)
        command.now told) }
    ensures err { IfErr result (λ stop. (stop ≡ SyncStop.Memory) × (S.known set.new ≡ S.known set.old)) }
    ensures sizes { S.sizes set.new ≡ S.sizes set.old }
    ensures stays { S.stays set.old set.new }
    ensures whole { S.is_whole set.old → result ≢ Err SyncStop.Memory → S.is_whole set.new }
    ensures defined { IsDefined (S.sizes set.new) (S.known set.new) }
{
    match set.step(rt, NO_LINE, command) {
        Ok(told) => Ok(told),
        Err(_) => Err(SyncStop::Memory),
    }
}
