// Jobs that workers claim, each once.
ghost use Rattle.std.specs.Prelude.{◌≡◌, ◌⊎◌, ℕ, ◌+◌, ◌^◌, ◌<◌, ◌≤◌, [], length, Some, IfOk, IfErr, IfSome, MatchOption};
ghost use Rattle.std.specs.Mem.Slots.{slots_items, slots_len, IsFull};
ghost use Rattle.batch_applier.specs.Claims.{opened, one_part, other_parts, joined, spent, IsFree, HasNone, HasJob, HasClaimed, HasDone, AreReadyJobs, AreDone, claimed, Invariant};

use crate::view::View;
use atomic_table::{Closed, Join, Play, Refused, Seat, Split, Table, TableRule};
use std::alloc::Global;
use std::snapshot::Snapshot;

/// What a worker does once.
pub(crate) trait Job {
    // When it may be done.
    ghost ready: { Self → Type 0 };

    // What it is before, and after.
    ghost done: { Self → Self → Type 0 };

    fn run(self) -> Self
        requires { ready self }
        ensures { done self result };
}

pub(crate) struct ClaimRule;

impl<T: Job> TableRule<Option<T>, View<T>, Snapshot<Vec<Option<T>>>> for ClaimRule {
    ghost holds = { λ key. Invariant T.ready T.done key.value.items };

    ghost first = { λ key. opened };
}

pub(crate) struct Draws;

impl<T: Job> Play<Option<T>, View<T>> for Draws {
    ghost then = { claimed T.ready };
}

/// One part stays, and the others go to a new seat.
pub(crate) struct Parts;

impl<T> Split<View<T>> for Parts {
    ghost left = { one_part };

    ghost right = { other_parts };
}

pub(crate) struct Absorbs;

impl<T> Join<View<T>> for Absorbs {
    ghost both = { joined };

    ghost spent = { spent };
}

/// The right of one worker to claim jobs. It has no bytes.
pub(crate) type Claimer<T> = Seat<Option<T>, View<T>>;

const CLAIMS: usize = 0;

/// Jobs in slots, and one word that counts the claims.
pub(crate) struct Claims<T: Job> {
    pub(crate) table: Table<Option<T>, View<T>, Snapshot<Vec<Option<T>>>, ClaimRule, Global>,
    ghost counts: { (table.shared.table_id.words ≡ 1)
        × (table.shared.table_id.slots ≡ length table.shared.key.value.items) },
}

impl<T: Job> Claims<T> {
    /// Out of memory hands the jobs back.
    pub(crate) fn new(
        alloc: Global,
        jobs: Vec<Option<T>>,
    ) -> Result<(Claims<T>, Claimer<T>), Vec<Option<T>>>
        requires few { length jobs.items ≤ 2 ^ 32 }
        requires ready { AreReadyJobs T.ready jobs.items }
        ensures jobs { IfOk result (λ c. c.0.table.shared.key.value.items ≡ jobs.items) }
        ensures claimer { IfOk result (λ c.
            (c.1.table_id ≡ c.0.table.shared.table_id) × (c.1.me ≡ (opened, []))) }
        ensures err { IfErr result (λ j. j.items ≡ jobs.items) }
    {
        let about = Snapshot::of(&jobs);
        match Table::new(alloc, &[0], jobs, &about) {
            Ok((table, claimer)) => Ok((Claims { table }, claimer)),
            Err(Refused { slots }) => Err(slots),
        }
    }

    /// Gives all parts but one to a new claimer.
    pub(crate) fn split(&self, claimer: &mut Claimer<T>) -> Claimer<T>
        requires claimer { (claimer.old.table_id ≡ self.now.table.shared.table_id) × IsFree claimer.old.me }
        requires live { 0 < claimer.old.me.0.live }
        ensures claimer { (claimer.new.table_id ≡ claimer.old.table_id)
            × (claimer.new.me ≡ (one_part claimer.old.me.0, [])) }
        ensures other { (result.table_id ≡ claimer.old.table_id)
            × (result.me ≡ (other_parts claimer.old.me.0, [])) }
    {
        self.table.shared.split_seat::<Parts>(claimer)
    }

    /// Joins the parts of another claimer into this one.
    pub(crate) fn join(&self, claimer: &mut Claimer<T>, other: Claimer<T>)
        requires claimer { (claimer.old.table_id ≡ self.now.table.shared.table_id) × IsFree claimer.old.me }
        requires other { (other.table_id ≡ self.now.table.shared.table_id) × IsFree other.me }
        ensures { (claimer.new.table_id ≡ claimer.old.table_id)
            × (claimer.new.me ≡ (joined claimer.old.me.0 other.me.0, [])) }
    {
        self.table.shared.join_seat::<Absorbs>(claimer, other);
    }

    // Puts back the job that was done, takes the one with the next number, and returns that number. None
    // where no job is left.
    #[tactic(auto, using(crate::proofs::ClaimSteps::claims))]
    fn claim(&self, claimer: &mut Claimer<T>) -> Option<usize>
        requires claimer { claimer.old.table_id ≡ self.now.table.shared.table_id }
        requires live { 0 < claimer.old.me.0.live }
        requires done { IsFree claimer.old.me ⊎ HasDone T.done claimer.old.me }
        ensures same { claimer.new.table_id ≡ claimer.old.table_id }
        ensures claimed { MatchOption result (HasNone claimer.old.me claimer.new.me)
            (λ n. HasClaimed T.ready claimer.old.me n claimer.new.me) }
        ensures within { IfSome result (λ n. n < length self.now.table.shared.key.value.items) }
        ensures later { IfSome result (λ n. (k : ℕ) (x : T) → claimer.old.me.0.taken ≡ Some (k, x) → k < n) }
    {
        let place = self.table.shared.fetch_add::<Draws>(claimer, CLAIMS, 1) as usize;
        if place < self.table.slot_count() {
            Some(place)
        } else {
            None
        }
    }

    // Does the job that it has.
    fn run(&self, claimer: &mut Claimer<T>, place: usize)
        requires claimer { claimer.old.table_id ≡ self.now.table.shared.table_id }
        requires job { HasJob T.ready claimer.old.me place }
        ensures claimer { (claimer.new.table_id ≡ claimer.old.table_id)
            × (claimer.new.me.0 ≡ claimer.old.me.0) }
        ensures done { HasDone T.done claimer.new.me }
    {
        let Some(job) = self.table.shared.exchange(claimer, place, None) else {
            unreachable!()
        };
        let vacant = self.table.shared.exchange(claimer, place, Some(job.run()));
        let None = vacant else { unreachable!() };
    }

    /// Claims jobs and does them, until none is left.
    pub(crate) fn work(&self, claimer: &mut Claimer<T>)
        requires { (claimer.old.table_id ≡ self.now.table.shared.table_id) × IsFree claimer.old.me
            × (0 < claimer.old.me.0.live) }
        ensures same { claimer.new.table_id ≡ claimer.old.table_id }
        ensures ended { IsFree claimer.new.me × (claimer.new.me.0.live + 1 ≡ claimer.old.me.0.live)
            × (claimer.new.me.0.ended ≡ claimer.old.me.0.ended + 1) }
    {
        while let Some(place) = self.claim(claimer) {
            self.run(claimer, place);
        }
    }

    /// The jobs, each done.
    pub(crate) fn close(self, claimer: Claimer<T>) -> Closed<Option<T>, Global>
        requires claimer { (claimer.table_id ≡ self.table.shared.table_id) × IsFree claimer.me }
        requires parts { (claimer.me.0.live + claimer.me.0.ended ≡ 16) × (0 < claimer.me.0.ended) }
        ensures full { IsFull result.words × IsFull result.slots }
        ensures done { (slots_len result.slots ≡ length self.table.shared.key.value.items)
            × AreDone T.done self.table.shared.key.value.items (slots_items result.slots) }
    {
        let Claims { table } = self;
        table.close_with(claimer)
    }
}
