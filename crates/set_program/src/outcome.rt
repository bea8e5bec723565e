// What a call leaves.
ghost use Rattle.std.specs.Prelude.{◌≡◌};
ghost use Rattle.set_model.specs.Limits.{IsRun};
ghost use Rattle.set_model.specs.Run.{AreSizes};
ghost use Rattle.set_world.specs.Disks.{AllStand};
ghost use Rattle.set_program.specs.Left.{IfSet, events_of};

use rs_disk::Disk;
use set_model::Event;
use set_world::World;

/// How a call of the program ended: the status that it exits with, and what it leaves.
#[derive(Drop)]
pub struct Outcome<D: Disk> {
    /// 0 to 10, as `run_set` says.
    pub status: u8,
    /// The set, or its disks.
    pub left: Left<D>,
}

/// The set as far as it was run; or its events and disks, if it wasn't run or a new member was made.
#[derive(Drop)]
pub enum Left<D: Disk> {
    /// The set, as far as it was run.
    World(World<D>),
    /// The set wasn't opened, and there are no events; or it was closed for a new member. These are its
    /// events and the disks.
    Parts(Vec<Event>, Vec<D>),
}

impl<D: Disk> Outcome<D> {
    /// What was done, oldest first.
    pub fn events(&self) -> &[Event]
        ensures { result.now ≡ events_of self.now.left }
    {
        match &self.left {
            Left::World(world) => world.history(),
            Left::Parts(events, _) => events,
        }
    }
}

impl<D: Disk> Left<D> {
    /// A set is sound and stands on its disks: a fact for proofs, which costs nothing.
    pub(crate) fn recall_sound(&self)
        ensures sizes { IfSet self.now (λ set. AreSizes set.sizes) }
        ensures run { IfSet self.now (λ set. IsRun set.sizes set.history) }
        ensures stands { IfSet self.now (AllStand D.state) }
    {
        match self {
            Left::World(world) => {
                world.recall_run();
                world.recall_stands();
            }
            Left::Parts(..) => {}
        }
    }
}
