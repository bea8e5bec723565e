// The lists of a block, run side by side.
ghost use Rattle.std.specs.Prelude.{◌≡◌, ◌<◌, ◌++◌, ◌∷◌, [], length, IfOk, IsErrOf, OnErr, OnOk};
ghost use Rattle.std.specs.List.{list_all, AllPass};
ghost use Rattle.std.specs.Thread.{IsSync};
ghost use Rattle.set_model.specs.Limits.{is_for};
ghost use Rattle.set_model.specs.Run.{HISTORY_LIMIT};
ghost use Rattle.set_world.specs.declared.error.StepError.{StepError as AStepError};
ghost use Rattle.turn_board.specs.Passes.{IsFree};
ghost use Rattle.turn_board.specs.Views.{seen};
ghost use Rattle.shared_set.specs.Passes.{IsPass, sizes_of, undone, view};
ghost use Rattle.set_program.specs.Blocks.{AreOfSome, EndsBlock, EndsList, IsNew, KeepsRun, KeepsShort, Merges, RanBlock, Rises, TellsBlock, TriedBlock, TriedList};

use crate::beside::{Job, beside};
use crate::told_order::{Told, merged};
use batch_applier::Gate;
use bson_doc::Mem;
use fault_script::Lines;
use rs_disk::Disk;
use set_model::{Command, Reply};
use set_world::StepError;
use shared_set::{Pass, SharedSet};
use std::alloc::Global;
use std::sync::Wait;
use std::thread::Threads;

/// Runs each list with a pass that is split from this one and joined into it at the end. The caller runs one
/// list, and each other list of at least two lines runs on a thread of its own; the caller also runs shorter
/// ones, and those for which no thread can be started. Each list passes the gate, with its place counted from
/// 0, before its first line. The result is the place in the history, the line and the reply of each event, by
/// rising place.
///
/// # Errors
/// Those of `SharedSet::step`, and out of memory for the result. Each list was then run up to some line.
pub fn run_block<D: Disk + Send, G: Gate + Sync, R: Threads + Wait + Sync>(
    rt: &R,
    alloc: Global,
    set: &SharedSet<D>,
    pass: &mut Pass<D>,
    lists: &[Lines],
    gate: &G,
) -> Result<Vec<(u32, u32, Reply)>, StepError>
    requires pass { IsPass set.now pass.old × IsFree pass.old }
    requires parts { length lists.now < (view pass.old).parts }
    requires fits { AllPass (list_all (λ line. is_for (sizes_of set.now).nodes line.1)) lists.now }
    ensures pass { IsPass set.now pass.new × IsFree pass.new }
    ensures told { IfOk result
        (λ told. TellsBlock (sizes_of set.now) lists.now (view pass.old) (view pass.new) told.items) }
    ensures err { OnErr result (RanBlock AreOfSome lists.now (view pass.old) (view pass.new)) }
    ensures tried { TriedBlock lists.now (undone pass.old) (undone pass.new) }
    ensures full { IsErrOf result AStepError.HistoryFull → length (seen (view pass.new)) ≡ HISTORY_LIMIT }
    ensures defined { KeepsRun (sizes_of set.now) (view pass.old) (view pass.new) }
    ensures short { KeepsShort (view pass.old) (view pass.new) }
{
    let (pass, told) = run_lists(rt, alloc, set, pass, lists, gate);
    take_back(pass);
    told
}

/// Runs the last list beside those before it, and lends the pass back.
#[cycle(block)]
fn run_lists<'a, D: Disk + Send, G: Gate + Sync, R: Threads + Wait + Sync>(
    rt: &R,
    alloc: Global,
    set: &SharedSet<D>,
    pass: &'a mut Pass<D>,
    lists: &[Lines],
    gate: &G,
) -> (&'a mut Pass<D>, Result<Vec<Told>, StepError>)
    requires pass { IsPass set.now pass.old × IsFree pass.old }
    requires parts { length lists.now < (view pass.old).parts }
    requires fits { AllPass (list_all (λ line. is_for (sizes_of set.now).nodes line.1)) lists.now }
    ensures lent { result.0.ghost_name ≡ pass.entry.ghost_name }
    ensures pass { IsPass set.now result.0.now × IsFree result.0.now }
    ensures short { KeepsShort (view pass.old) (view result.0.now) }
    ensures defined { KeepsRun (sizes_of set.now) (view pass.old) (view result.0.now) }
    ensures ends { EndsBlock (sizes_of set.now) lists.now (view pass.old) (view result.0.now) result.1 }
    ensures tried { TriedBlock lists.now (undone pass.old) (undone result.0.now) }
{
    let Some((lines, others)) = lists.split_last() else {
        return (pass, Ok(Vec::new(alloc)));
    };
    let place = place_of_last(lists);
    let own = set.split(pass);
    let job = ListJob {
        rt,
        alloc,
        set,
        pass: own,
        lines,
        place,
        gate,
    };
    let (ended, (pass, earlier)) = beside(
        rt,
        pays_for_thread(lines, others),
        job,
        move || -> (&mut Pass<D>, Result<Vec<Told>, StepError>)
            requires { IsSync R.row × IsSync G.row × IsPass set.now pass.now × IsFree pass.now
                × (length others.now < (view pass.now).parts)
                × AllPass (list_all (λ line. is_for (sizes_of set.now).nodes line.1)) others.now }
            ensures { (result.0.ghost_name ≡ pass.entry.ghost_name)
                × IsPass set.entry.now result.0.now × IsFree result.0.now
                × KeepsShort (view pass.entry.now) (view result.0.now)
                × KeepsRun (sizes_of set.entry.now) (view pass.entry.now) (view result.0.now)
                × EndsBlock (sizes_of set.entry.now) others.entry.now (view pass.entry.now)
                (view result.0.now) result.1
                × TriedBlock others.entry.now (undone pass.entry.now) (undone result.0.now) }
        { run_lists(rt, alloc, set, pass, others, gate) },
    );
    let ListEnd { pass: own, told } = ended;
    set.join(pass, own);
    (pass, both(alloc, earlier, told))
}

/// Whether a list is worth a thread of its own: it has at least two lines, and others have some.
fn pays_for_thread(lines: &Lines, others: &[Lines]) -> bool {
    lines.as_slice().len() >= 2 && others.iter().any(|other| !other.as_slice().is_empty())
}

/// Ends a loan.
fn take_back<T>(_lent: &mut T)
    ensures { _lent.new ≡ _lent.old }
{}

/// A board has at most 65,536 passes, so no block has more lists.
fn place_of_last(lists: &[Lines]) -> u32 {
    lists.len().saturating_sub(1).min(u32::MAX as usize) as u32
}

/// A list to run, with a pass of its own.
#[derive(Drop)]
struct ListJob<'a, D: Disk, G: Gate, R: Threads + Wait + Sync> {
    rt: &'a R,
    alloc: Global,
    set: &'a SharedSet<D>,
    pass: Pass<D>,
    lines: &'a Lines,
    place: u32,
    gate: &'a G,
}

/// The pass of a list that was run, and its events' places, lines and replies.
#[derive(Drop)]
struct ListEnd<D: Disk> {
    pass: Pass<D>,
    told: Result<Vec<Told>, StepError>,
}

impl<'a, D: Disk, G: Gate, R: Threads + Wait + Sync> Job for ListJob<'a, D, G, R> {
    type End = ListEnd<D>;

    ghost ready = { λ j. IsSync R.row × IsPass j.set.now j.pass × IsFree j.pass × IsNew (view j.pass)
        × (undone j.pass ≡ [] ∷ [])
        × AllPass (λ line. is_for (sizes_of j.set.now).nodes line.1) j.lines.now };

    ghost ends = { λ j e. IsPass j.set.now e.pass × IsFree e.pass × KeepsShort (view j.pass) (view e.pass)
        × KeepsRun (sizes_of j.set.now) (view j.pass) (view e.pass)
        × EndsList (sizes_of j.set.now) j.lines.now (view j.pass) (view e.pass) e.told
        × TriedList j.lines.now (undone e.pass) };

    fn run(self) -> ListEnd<D> {
        let ListJob {
            rt,
            alloc,
            set,
            mut pass,
            lines,
            place,
            gate,
        } = self;
        gate.pass(place);
        let told = step_each(rt, alloc, set, &mut pass, lines);
        ListEnd { pass, told }
    }
}

fn step_each<D: Disk, R: Threads + Wait + Sync>(
    rt: &R,
    alloc: Global,
    set: &SharedSet<D>,
    pass: &mut Pass<D>,
    lines: &Lines,
) -> Result<Vec<Told>, StepError>
    requires pass { IsPass set.now pass.old × IsFree pass.old × IsNew (view pass.old)
        × (undone pass.old ≡ [] ∷ []) }
    requires fits { AllPass (λ line. is_for (sizes_of set.now).nodes line.1) lines.now }
    ensures pass { IsPass set.now pass.new × IsFree pass.new }
    ensures short { KeepsShort (view pass.old) (view pass.new) }
    ensures defined { KeepsRun (sizes_of set.now) (view pass.old) (view pass.new) }
    ensures ends { EndsList (sizes_of set.now) lines.now (view pass.old) (view pass.new) result }
    ensures tried { TriedList lines.now (undone pass.new) }
{
    let mut told = Vec::new(alloc);
    for (line, command) in lines.as_slice() {
        let (place, reply) = set.step(rt, pass, *line, command)?;
        keep(&mut told, (place, *line, reply))?;
    }
    Ok(told)
}

fn keep(told: &mut Vec<Told>, one: Told) -> Mem<()>
    ensures { OnOk result (told.new.items ≡ told.old.items ++ one ∷ []) }
{
    told.push(one)?;
    Ok(())
}

fn both(
    alloc: Global,
    earlier: Result<Vec<Told>, StepError>,
    later: Result<Vec<Told>, StepError>,
) -> Result<Vec<Told>, StepError>
    requires earlier { IfOk earlier (λ told. Rises told.items) }
    requires later { IfOk later (λ told. Rises told.items) }
    ensures { Merges earlier later result }
{
    Ok(merged(alloc, earlier?, later?)?)
}
