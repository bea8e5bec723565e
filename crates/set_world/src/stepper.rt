ghost use Rattle.std.specs.Prelude.{◌≡◌, true, length, IfOk, IsErrOf, OnErr};
ghost use Rattle.std.specs.Thread.{IsSync};
ghost use Rattle.set_model.specs.Limits.{is_for};
ghost use Rattle.set_model.specs.Run.{HISTORY_LIMIT};
ghost use Rattle.set_world.specs.declared.error.StepError.{StepError as AStepError};
ghost use Rattle.set_world.specs.Stepper.{AddsOne, IsDefined, Learns, StepsOnce};

use crate::{StepError, World};
use rs_disk::Disk;
use set_model::{Command, Reply};
use std::sync::Wait;
use std::thread::Threads;

/// Something that steps a set: the set itself, or one of several that take turns.
pub trait Stepper {
    ghost use Rattle.std.specs.Prelude.{◌≢◌, Bool, Err, List};
    ghost use Rattle.set_model.specs.declared.command.Event.{Event};
    ghost use Rattle.set_model.specs.Run.{Sizes};

    // How many nodes the set has, and how many members at first.
    ghost sizes: { Self → Sizes };

    // The events that it knows, oldest first.
    ghost known: { Self → List Event };

    // The events that it added itself, oldest first.
    ghost own: { Self → List Event };

    // Whether no one else steps the set.
    ghost is_alone: { Bool };

    // How a step leaves what isn't known, apart from the sizes.
    ghost stays: { Self → Self → Type 0 };

    // No step has run out of memory while it used disks, as far as this one can know.
    ghost is_whole: { Self → Type 0 };

    /// Does one command, whose event gets this line, and returns the event's reply.
    ///
    /// # Errors
    /// Those of `World::step`. No event of this command is added.
    fn step<R: Threads + Wait + Sync>(
        &mut self,
        rt: &R,
        line: u32,
        command: &Command,
    ) -> Result<Reply, StepError>
        // The proof of an `impl` doesn't see the bound `Sync`.
        requires sync { IsSync R.row }
        requires command { is_for (sizes self.old).nodes command.now ≡ true }
        ensures step { IfOk result (λ reply.
            StepsOnce is_alone (sizes self.old) (known self.old) (known self.new) line command.now reply) }
        ensures err { OnErr result (Learns is_alone (known self.old) (known self.new)) }
        ensures own { IfOk result (λ reply. AddsOne (known self.new) (own self.old) (own self.new)) }
        ensures idle { OnErr result (own self.new ≡ own self.old) }
        ensures full { IsErrOf result AStepError.HistoryFull → length (known self.new) ≡ HISTORY_LIMIT }
        ensures sizes { sizes self.new ≡ sizes self.old }
        ensures stays { stays self.old self.new }
        ensures whole { is_whole self.old → result ≢ Err AStepError.Memory → is_whole self.new }
        ensures defined { IsDefined (sizes self.new) (known self.new) };

    // The same holds for two steps.
    ghost stays_on: { (one two three : Self) → stays one two → stays two three → stays one three };
}

impl<D: Disk> Stepper for World<D> {
    ghost use Rattle.std.specs.Prelude.{◌≡◌, true};
    ghost use Rattle.set_world.specs.Went.{GoesOn};

    ghost sizes = { λ set. set.sizes };

    ghost known = { λ set. set.history };

    ghost own = { λ set. set.history };

    ghost is_alone = { true };

    ghost stays = { λ old new. GoesOn D.state old new };

    ghost is_whole = { λ set. set.whole ≡ true };

    ghost stays_on = { λ one two three first second begun went. second begun (first begun went) };

    fn step<R: Threads + Wait + Sync>(
        &mut self,
        rt: &R,
        line: u32,
        command: &Command,
    ) -> Result<Reply, StepError> {
        self.recall_run();
        let answer = World::step(self, rt, line, command);
        self.recall_run();
        answer
    }
}
