ghost use Rattle.std.specs.Prelude.{◌≡◌, ◌<◌, ◌≤◌, ◌++◌, ◌∷◌, [], true, length, drop, IfErr, IfOk};
ghost use Rattle.set_model.specs.Limits.{IsRun, is_for};
ghost use Rattle.set_model.specs.Run.{HISTORY_LIMIT, AreSizes, run};
ghost use Rattle.set_model.specs.World.{touched_node};
ghost use Rattle.set_world.specs.Went.{WentOn};
ghost use Rattle.shared_set.specs.Attempts.{WentBy, came_to};
ghost use Rattle.shared_set.specs.Calls.{Went};
ghost use Rattle.shared_set.specs.Sets.{IsRunOf, attempts_kept, first_of, point_in};

use crate::attempt::Attempt;
use crate::attempts::{Attempts, Turn};
use rs_disk::Disk;
use set_model::{Command, Reply};
use set_world::{StepError, World};
use std::alloc::{AllocFailed, Global};
use std::marker::Model;
use std::snapshot::Snapshot;
use std::thread::Threads;
use turn_board::Turned;

/// A set on a board: its entries are what was tried on it, and its points are its nodes. A turn hands on a
/// pointer. Contracts see the set as it is, and as it was when it was shared.
#[derive(Drop)]
pub struct Turning<D: Disk> {
    world: Box<World<D>>,
    /// For proofs alone.
    begun: Snapshot<World<D>>,
    tried: Attempts,
}

impl<D: Disk> Model for Turning<D> {
    ghost use Rattle.std.specs.Coded.{codes};
    ghost use Rattle.set_model.specs.contracts.command.Event as event;
    ghost use Rattle.shared_set.specs.contracts.attempt.Attempt as attempt;
    ghost use Rattle.shared_set.specs.Sets.{SetOnBoard};

    ghost Value = { SetOnBoard D };

    ghost coded = { Prim.hlevel (codes, event.the_row.coded, attempt.the_row.coded) };

    ghost use Rattle.set_world.specs.Went.{WentOn};
    ghost use Rattle.shared_set.specs.Attempts.{WentBy};

    ghost view = { λ t. record { begun = t.begun.value; set = t.world.value; tried = t.tried.list } };

    ghost invariant = { λ t. WentOn D.state t.begun.value t.world.value
        × WentBy D.state t.begun.value t.world.value t.tried.list };
}

impl<D: Disk> Turned for Turning<D> {
    type Entry = Attempt;

    type Fixed = World<D>;

    ghost entries = { attempts_kept };

    ghost fixed = { first_of };

    ghost number_at = { point_in };

    ghost sound = { IsRunOf };

    fn number(&self, point: u32) -> u64 {
        self.world.as_ref().point_of(point)
    }

    fn recall_sound(&self) {
        self.world.as_ref().recall_run();
    }
}

impl<D: Disk> Turning<D> {
    /// If memory runs out, it hands the set back.
    pub(crate) fn new(alloc: Global, world: World<D>) -> Result<Turning<D>, World<D>>
        ensures ok { IfOk result (λ turning. (turning.begun ≡ world) × (turning.set ≡ world)
            × (turning.tried ≡ [])) }
        ensures err { IfErr result (λ back. back ≡ world) }
    {
        let begun = Snapshot::of(&world);
        match Box::new(alloc, world) {
            Ok(world) => Ok(Turning {
                world,
                begun,
                tried: Attempts::new(),
            }),
            Err(AllocFailed { value }) => Err(value),
        }
    }

    /// The set, which went on from what it was when it was shared.
    pub(crate) fn into_world(self) -> World<D>
        ensures same { result ≡ self.set }
        ensures went { WentOn D.state self.begun result }
        ensures tried { WentBy D.state self.begun result self.tried }
    {
        let Turning {
            world,
            begun: _begun,
            tried: _tried,
        } = self;
        Box::into_inner(world)
    }

    /// How the set went on since it was shared: a fact for proofs, which costs nothing.
    pub(crate) fn recall_went(&self)
        ensures went { WentOn D.state self.now.begun self.now.set }
        ensures tried { WentBy D.state self.now.begun self.now.set self.now.tried }
    {
        let _ = &self.world;
    }

    /// Does one command. It returns the node that this touches, and the event's place and reply.
    pub(crate) fn step<R: Threads + Sync>(
        &mut self,
        rt: &R,
        line: u32,
        command: &Command,
    ) -> (u32, Result<(u32, Reply), StepError>)
        requires command { is_for self.old.set.sizes.nodes command.now ≡ true }
        ensures touched { result.0
            ≡ touched_node (run self.old.set.sizes self.old.set.history).world command.now }
        ensures known { result.0 < self.old.set.sizes.nodes }
        ensures went { Went D.state self.old.set self.new.set line command.now result.1 }
        ensures tried { self.new.tried ≡ self.old.tried
            ++ came_to (drop (length self.old.set.history) self.new.set.history) line command.now ∷ [] }
        ensures sizes { self.new.set.sizes ≡ self.old.set.sizes }
        ensures fixed { first_of self.new ≡ first_of self.old }
        ensures lawful { AreSizes self.new.set.sizes }
        ensures run { IsRun self.new.set.sizes self.new.set.history }
        ensures short { length self.new.set.history ≤ HISTORY_LIMIT }
    {
        let world = self.world.as_mut();
        world.recall_run();
        let node = world.touched(command);
        let before = world.history().len();
        let place = before as u32;
        let answer = world.step(rt, line, command);
        world.recall_run();
        let turn = Turn {
            before,
            history: world.history(),
            line,
            command,
        };
        let tried = self.tried.then(&turn);
        self.tried = tried;
        match answer {
            Ok(reply) => (node, Ok((place, reply))),
            Err(error) => (node, Err(error)),
        }
    }
}
