ghost use Rattle.std.specs.Prelude.{◌≡◌, ◌≢◌, ◌∷◌, ◌<◌, [], Err, IsErrOf};
ghost use Rattle.rs_io.specs.Fault.{HasCause};
ghost use Rattle.change_watch.specs.Following.{AsksAll, AsksOnce, Follows, StaysSo, gave_nothing};

use crate::WatchStop;
use crate::putting::{put_changes, put_resume, put_stop};
use bson_doc::Text;
use change_stream::{ChangeStream, next, open};
use change_words::{Watch, WatchRefusal};
use oplog_entry::Entry;
use rs_io::Sink;
use set_world::Stepper;
use std::alloc::Global;
use std::sync::Wait;
use std::thread::Threads;

/// A call gives at most this many entries.
const MOST: u32 = 1000;

/// Each call that is answered adds two events, and a history has fewer than twice as many.
const MOST_CALLS: u32 = 2_147_483_648;

/// Asks the nodes one after another, each until it has nothing more, and puts a line for each change of the
/// collection. The last line says where to resume, or why a node refused. Each line is put by one call of the
/// sink, and a stream call's lines before the next stream call. A line that isn't put ends the watch. `size`
/// is how many nodes the set has.
///
/// # Errors
/// `Refused` where a node is down or not of the set, or the token is unknown; `WriteFault` where the sink
/// failed; `Memory` also where the history is full.
pub fn follow<R: Threads + Wait + Sync, S: Stepper, K: Sink>(
    rt: &R,
    alloc: Global,
    watch: &Watch,
    size: u32,
    set: &mut S,
    sink: &mut K,
) -> Result<(), WatchStop>
    requires size { size ≡ (S.sizes set.old).nodes }
    ensures follows { Follows S.is_alone (S.sizes set.old) watch.now (S.known set.old) (S.known set.new)
        (K.held sink.old) (K.held sink.new) result }
    ensures sizes { S.sizes set.new ≡ S.sizes set.old }
    ensures stays { StaysSo S.stays set.old set.new }
    ensures whole { S.is_whole set.old → result ≢ Err WatchStop.Memory → S.is_whole set.new }
    ensures cause { HasCause (K.faults sink.old) (K.faults sink.new) (IsErrOf result WatchStop.WriteFault) }
    ensures steady { K.steady sink.old → K.steady sink.new × (result ≢ Err WatchStop.WriteFault) }
{
    let mut stream = open(watch.token);
    let mut text = String::new(alloc);
    let nodes = watch.nodes.as_slice();
    match ask_nodes(
        rt,
        &watch.collection,
        nodes,
        size,
        &mut stream,
        set,
        sink,
        &mut text,
    ) {
        Ok(()) => put_resume(stream.token, sink, &mut text),
        Err(stop) => {
            put_stop(stop, sink)?;
            Err(stop)
        }
    }
}

/// Asks nodes one after another, and puts the changes that they give.
fn ask_nodes<R: Threads + Wait + Sync, S: Stepper, K: Sink>(
    rt: &R,
    collection: &Text,
    nodes: &[u32],
    size: u32,
    stream: &mut ChangeStream,
    set: &mut S,
    sink: &mut K,
    text: &mut String,
) -> Result<(), WatchStop>
    requires size { size ≡ (S.sizes set.old).nodes }
    ensures asks { AsksAll S.is_alone (S.sizes set.old) collection.now stream.old.token nodes.now
        stream.new.token (S.known set.old) (S.known set.new) (K.held sink.old) (K.held sink.new) result }
    ensures sizes { S.sizes set.new ≡ S.sizes set.old }
    ensures stays { StaysSo S.stays set.old set.new }
    ensures whole { S.is_whole set.old → result ≢ Err WatchStop.Memory → S.is_whole set.new }
    ensures cause { HasCause (K.faults sink.old) (K.faults sink.new) (IsErrOf result WatchStop.WriteFault) }
    ensures steady { K.steady sink.old → K.steady sink.new × (result ≢ Err WatchStop.WriteFault) }
{
    for node in nodes {
        ask_node(rt, collection, *node, size, stream, set, sink, text)?;
    }
    Ok(())
}

/// Asks a node until it has nothing more.
fn ask_node<R: Threads + Wait + Sync, S: Stepper, K: Sink>(
    rt: &R,
    collection: &Text,
    node: u32,
    size: u32,
    stream: &mut ChangeStream,
    set: &mut S,
    sink: &mut K,
    text: &mut String,
) -> Result<(), WatchStop>
    requires size { size ≡ (S.sizes set.old).nodes }
    ensures asks { AsksAll S.is_alone (S.sizes set.old) collection.now stream.old.token (node ∷ [])
        stream.new.token (S.known set.old) (S.known set.new) (K.held sink.old) (K.held sink.new) result }
    ensures sizes { S.sizes set.new ≡ S.sizes set.old }
    ensures stays { StaysSo S.stays set.old set.new }
    ensures whole { S.is_whole set.old → result ≢ Err WatchStop.Memory → S.is_whole set.new }
    ensures cause { HasCause (K.faults sink.old) (K.faults sink.new) (IsErrOf result WatchStop.WriteFault) }
    ensures steady { K.steady sink.old → K.steady sink.new × (result ≢ Err WatchStop.WriteFault) }
{
    if node >= size {
        return Err(WatchStop::Refused(WatchRefusal::NoSuchNode));
    }
    for _ in 0..MOST_CALLS {
        let ended = ask_once(rt, collection, node, stream, set, sink, text)?;
        if ended {
            return Ok(());
        }
    }
    Err(WatchStop::Memory)
}

/// Asks a node once, and puts the changes that it gives. The result is whether there were none.
fn ask_once<R: Threads + Wait + Sync, S: Stepper, K: Sink>(
    rt: &R,
    collection: &Text,
    node: u32,
    stream: &mut ChangeStream,
    set: &mut S,
    sink: &mut K,
    text: &mut String,
) -> Result<bool, WatchStop>
    requires node { node < (S.sizes set.old).nodes }
    ensures asks { AsksOnce S.is_alone (S.sizes set.old) collection.now node stream.old.token
        stream.new.token (S.known set.old) (S.known set.new) (K.held sink.old) (K.held sink.new) result }
    ensures sizes { S.sizes set.new ≡ S.sizes set.old }
    ensures stays { S.stays set.old set.new }
    ensures whole { S.is_whole set.old → result ≢ Err WatchStop.Memory → S.is_whole set.new }
    ensures cause { HasCause (K.faults sink.old) (K.faults sink.new) (IsErrOf result WatchStop.WriteFault) }
    ensures steady { K.steady sink.old → K.steady sink.new × (result ≢ Err WatchStop.WriteFault) }
{
    let entries = next(stream, rt, set, node, MOST)?;
    put_changes(collection, &entries, sink, text)?;
    Ok(gave_nothing(&entries))
}

fn gave_nothing(entries: &[Entry]) -> bool
    ensures { result ≡ gave_nothing entries.now }
{
    entries.is_empty()
}
