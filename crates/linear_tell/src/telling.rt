ghost use Rattle.std.specs.Prelude.{◌≡◌, ◌≢◌, Err, IfOk, IsErrOf, OnErr};
ghost use Rattle.rs_io.specs.Fault.{HasCause};
ghost use Rattle.change_watch.specs.Following.{StaysSo};
ghost use Rattle.linear_words.specs.Texts.{told_text};
ghost use Rattle.linear_tell.specs.Telling.{Breaks, Comes, PutsText, Tells, told_of};

use crate::LinearStop;
use linear_read::{LinearAnswer, linear_read};
use linear_words::{Linear, LinearTold, set_told};
use rs_io::Sink;
use set_world::{StepError, Stepper};
use std::alloc::Global;
use std::sync::Wait;
use std::thread::Threads;

/// Does a linear read, and puts the line of its result by one call. `size` is how many nodes the set has.
///
/// # Errors
/// `Refused` where the read was refused or the set doesn't have the node; `WriteFault` where the sink failed;
/// `Memory` also where the history is full.
pub fn tell<R: Threads + Wait + Sync, S: Stepper, K: Sink>(
    rt: &R,
    alloc: Global,
    linear: &Linear,
    size: u32,
    set: &mut S,
    sink: &mut K,
) -> Result<(), LinearStop>
    requires size { size ≡ (S.sizes set.old).nodes }
    ensures tells { Tells S.is_alone (S.sizes set.old) linear.now (S.known set.old) (S.known set.new)
        (K.held sink.old) (K.held sink.new) result }
    ensures sizes { S.sizes set.new ≡ S.sizes set.old }
    ensures stays { StaysSo S.stays set.old set.new }
    ensures whole { S.is_whole set.old → result ≢ Err LinearStop.Memory → S.is_whole set.new }
    ensures cause { HasCause (K.faults sink.old) (K.faults sink.new) (IsErrOf result LinearStop.WriteFault) }
    ensures steady { K.steady sink.old → K.steady sink.new × (result ≢ Err LinearStop.WriteFault) }
{
    let told = read(rt, alloc, linear, size, set)?;
    put_told(alloc, &told, sink)?;
    if told.is_refusal() {
        Err(LinearStop::Refused)
    } else {
        Ok(())
    }
}

/// Does a linear read, if the set has the node.
fn read<R: Threads + Wait + Sync, S: Stepper>(
    rt: &R,
    alloc: Global,
    linear: &Linear,
    size: u32,
    set: &mut S,
) -> Result<LinearTold, StepError>
    requires size { size ≡ (S.sizes set.old).nodes }
    ensures ok { IfOk result (Comes S.is_alone (S.sizes set.old) linear.now (S.known set.old)
        (S.known set.new)) }
    ensures err { OnErr result (Breaks S.is_alone (S.sizes set.old) linear.now (S.known set.old)
        (S.known set.new)) }
    ensures sizes { S.sizes set.new ≡ S.sizes set.old }
    ensures stays { StaysSo S.stays set.old set.new }
    ensures whole { S.is_whole set.old → result ≢ Err StepError.Memory → S.is_whole set.new }
{
    if linear.node >= size {
        return Ok(LinearTold::NoSuchNode);
    }
    let name = linear.collection.as_str();
    let answer = linear_read(alloc, rt, set, linear.node, size, name, &linear.id)?;
    Ok(told_of(answer))
}

fn told_of(answer: LinearAnswer) -> LinearTold
    ensures { result ≡ told_of answer }
{
    match answer {
        LinearAnswer::Found(document) => LinearTold::Found(document),
        LinearAnswer::Missing => LinearTold::Missing,
        LinearAnswer::Refused(why) => LinearTold::Refused(why),
    }
}

fn put_told<K: Sink>(alloc: Global, told: &LinearTold, sink: &mut K) -> Result<(), LinearStop>
    ensures puts { PutsText (K.held sink.old) (K.held sink.new) (told_text told.now) result }
    ensures cause { HasCause (K.faults sink.old) (K.faults sink.new) (IsErrOf result LinearStop.WriteFault) }
    ensures steady { K.steady sink.old → K.steady sink.new × (result ≢ Err LinearStop.WriteFault) }
{
    let mut text = String::new(alloc);
    set_told(told, &mut text)?;
    sink.put(text.as_bytes())?;
    Ok(())
}
