// One of several that step a set.
ghost use Rattle.std.specs.Prelude.{◌≡◌};
ghost use Rattle.turn_board.specs.Passes.{IsFree};
ghost use Rattle.shared_set.specs.Calls.{reply_in};
ghost use Rattle.shared_set.specs.Passes.{IsPass};

use crate::shared::{Pass, SharedSet};
use rs_disk::Disk;
use set_model::{Command, Reply};
use set_world::{StepError, Stepper};
use std::sync::Wait;
use std::thread::Threads;

/// A shared set with the pass of one thread, between two turns. Its own events are the calls of the pass. The
/// pass keeps its parts: with all of them it can close the set later.
pub struct Caller<'a, D: Disk> {
    pub set: &'a SharedSet<D>,
    pub pass: &'a mut Pass<D>,
    ghost is_free: { IsPass set.now pass.now × IsFree pass.now },
}

impl<'a, D: Disk> Stepper for Caller<'a, D> {
    ghost use Rattle.std.specs.Prelude.{◌≡◌, false};
    ghost use Rattle.std.proofs.Common.{◌∙◌};
    ghost use Rattle.turn_board.specs.Views.{seen};
    ghost use Rattle.shared_set.specs.Calls.{Keeps, keeps_on, own_calls};
    ghost use Rattle.shared_set.specs.Passes.{sizes_of, view};

    ghost sizes = { λ caller. sizes_of caller.set.now };

    ghost known = { λ caller. seen (view caller.pass.now) };

    ghost own = { λ caller. own_calls (view caller.pass.now).calls };

    ghost is_alone = { false };

    ghost stays = { λ old new. (new.set ≡ old.set) × (new.pass.ghost_name ≡ old.pass.ghost_name)
        × Keeps (view old.pass.now) (view new.pass.now) };

    ghost is_whole = { λ _. Unit {0} };

    ghost stays_on = { λ one two three first second. (
      second.0 ∙ first.0,
      second.1 ∙ first.1,
      keeps_on (view one.pass.now) (view two.pass.now) (view three.pass.now) first.2 second.2,
    ) };

    fn step<R: Threads + Wait + Sync>(
        &mut self,
        rt: &R,
        line: u32,
        command: &Command,
    ) -> Result<Reply, StepError> {
        let answer = self.set.step(rt, self.pass, line, command);
        reply_in(answer)
    }
}

/// The answer of a step, without the place of its event.
fn reply_in(answer: Result<(u32, Reply), StepError>) -> Result<Reply, StepError>
    ensures { result ≡ reply_in answer }
{
    let (_, reply) = answer?;
    Ok(reply)
}
