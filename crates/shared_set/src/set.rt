// Making a shared set, its turns, its passes and its end.
ghost use Rattle.std.specs.Prelude.{◌≡◌, ◌<◌, ◌≤◌, ◌++◌, ◌∷◌, ℕ, [], length, true, IfErr, IfOk, IsErrOf, OnErr, OnOk};
ghost use mathlib.Core.List.{IsPrefix};
ghost use Rattle.set_model.specs.Limits.{IsRun, is_for};
ghost use Rattle.set_model.specs.Run.{HISTORY_LIMIT, AreSizes};
ghost use Rattle.set_world.specs.declared.error.StepError.{StepError as AStepError};
ghost use Rattle.set_world.specs.Went.{WentOn};
ghost use Rattle.turn_board.specs.History.{calls_by, names, times};
ghost use Rattle.turn_board.specs.Passes.{IsFree};
ghost use Rattle.turn_board.specs.Views.{answered, half, joined, less_one, numbered_as, opened, seen};
ghost use Rattle.shared_set.specs.Attempts.{WentOnBy, one_more};
ghost use Rattle.shared_set.specs.Calls.{Closes, Looks, Steps, Waits};
ghost use Rattle.shared_set.specs.Passes.{IsPass, begun_as, sizes_of, undone, view};

use crate::shared::{Pass, SharedSet};
use crate::turning::Turning;
use rs_disk::Disk;
use set_model::{Command, Reply};
use set_world::{StepError, World};
use std::alloc::Global;
use std::sync::Wait;
use std::thread::Threads;
use turn_board::Board;

impl<D: Disk> SharedSet<D> {
    /// Shares a set. The pass gets all 65,536 parts of the right to close it.
    ///
    /// # Errors
    /// Out of memory, which hands the set back.
    pub fn new(alloc: Global, world: World<D>) -> Result<(SharedSet<D>, Pass<D>), World<D>>
        ensures begun { IfOk result (λ shared. begun_as shared.0 ≡ world) }
        ensures pass { IfOk result (λ shared. IsPass shared.0 shared.1 × IsFree shared.1
            × (view shared.1 ≡ opened (view shared.1).fixed world.history)) }
        ensures undone { IfOk result (λ shared. undone shared.1 ≡ [] ∷ []) }
        ensures err { IfErr result (λ back. back ≡ world) }
    {
        let points = world.size();
        let turning = Turning::new(alloc, world)?;
        match Board::new(alloc, turning, points) {
            Ok((board, pass)) => Ok((SharedSet { board }, pass)),
            Err(turning) => Err(turning.into_world()),
        }
    }

    /// Waits for its turn and does one command, whose event gets this line. It returns the place of the event
    /// in the history, counted from 0, and the event's reply.
    ///
    /// # Errors
    /// Those of `World::step`: nothing is added to the history.
    pub fn step<R: Threads + Wait + Sync>(
        &self,
        rt: &R,
        pass: &mut Pass<D>,
        line: u32,
        command: &Command,
    ) -> Result<(u32, Reply), StepError>
        requires pass { IsPass self.now pass.old × IsFree pass.old }
        requires command { is_for (sizes_of self.now).nodes command.now ≡ true }
        ensures pass { IsPass self.now pass.new × IsFree pass.new }
        ensures step { IfOk result
            (λ done. Steps (sizes_of self.now) (view pass.old)
            (view pass.new) line command.now done.0 done.1) }
        ensures err { OnErr result (Waits (sizes_of self.now) (view pass.old) (view pass.new)) }
        ensures done { OnOk result (undone pass.new ≡ undone pass.old) }
        ensures undone { OnErr result (undone pass.new ≡ one_more (line, command.now) (undone pass.old)) }
        ensures full { IsErrOf result AStepError.HistoryFull → length (seen (view pass.new)) ≡ HISTORY_LIMIT }
        ensures sizes { AreSizes (sizes_of self.now) }
        ensures defined { IsRun (sizes_of self.now) (seen (view pass.new)) }
        ensures short { length (seen (view pass.new)) ≤ HISTORY_LIMIT }
    {
        let mut set = self.board.enter(rt, pass);
        set.recall_went();
        let (node, answer) = set.step(rt, line, command);
        set.recall_went();
        self.board.leave(pass, set, node);
        answer
    }

    /// The most entries that a node has had committed: those of its log up to its commit point. It never
    /// waits, and this pass never gets a smaller number later.
    pub fn peek_commit(&self, pass: &mut Pass<D>, node: u32) -> u64
        requires pass { IsPass self.now pass.old × IsFree pass.old }
        requires node { node < (sizes_of self.now).nodes }
        ensures pass { IsPass self.now pass.new × IsFree pass.new
            × (view pass.new ≡ answered (view pass.old) node result) }
        ensures undone { undone pass.new ≡ undone pass.old }
        ensures number { Looks (sizes_of self.now) (view pass.old) node result }
    {
        self.board.peek(pass, node)
    }

    /// Gives one part to a new pass, which has seen what this one has. None of the events that it has seen is
    /// a call with the new pass's number.
    pub fn split(&self, pass: &mut Pass<D>) -> Pass<D>
        requires pass { IsPass self.now pass.old × IsFree pass.old }
        requires parts { 1 < (view pass.old).parts }
        ensures pass { IsPass self.now pass.new × IsFree pass.new
            × (view pass.new ≡ less_one (view pass.old)) }
        ensures undone { (undone pass.new ≡ undone pass.old) × (undone result ≡ [] ∷ []) }
        ensures given { IsPass self.now result × IsFree result × ((p : ℕ)
            × (view result ≡ numbered_as (half (view pass.old)) p)
            × (calls_by p (view pass.old).turns ≡ [])) }
    {
        self.board.split(pass)
    }

    /// Takes in the parts of another pass, with its calls and what it has seen. No two passes have the same
    /// number.
    pub fn join(&self, pass: &mut Pass<D>, other: Pass<D>)
        requires pass { IsPass self.now pass.old × IsFree pass.old }
        requires other { IsPass self.now other × IsFree other }
        ensures pass { IsPass self.now pass.new × IsFree pass.new
            × (view pass.new ≡ joined (view pass.old) (view other)) }
        ensures seen { IsPrefix (view pass.old).turns (view pass.new).turns
            × IsPrefix (view other).turns (view pass.new).turns }
        ensures undone { undone pass.new ≡ undone pass.old ++ undone other }
        ensures once { (p : ℕ) → times p (names (view pass.new).calls) ≤ 1 }
    {
        self.board.join(pass, other)
    }

    /// The set, with the calls of all passes in its history. It needs a pass with all 65,536 parts, so every
    /// other pass was joined into it.
    pub fn close(self, pass: Pass<D>) -> World<D>
        requires pass { IsPass self pass × IsFree pass }
        requires parts { (view pass).parts ≡ 65536 }
        ensures closes { Closes (sizes_of self) (view pass) result.history }
        ensures went { WentOn D.state (begun_as self) result }
        ensures tried { WentOnBy D.state (undone pass) (begun_as self) result }
    {
        let SharedSet { board } = self;
        board.close(pass).into_world()
    }
}
