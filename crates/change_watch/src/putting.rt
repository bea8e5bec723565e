// The lines of changes, each put by one call.
ghost use Rattle.std.specs.Prelude.{◌≡◌, ◌≢◌, ◌∷◌, [], All, Err, IsErrOf, Ok};
ghost use Rattle.oplog_entry.specs.Lawful.{IsLawful};
ghost use Rattle.rs_io.specs.Fault.{HasCause};
ghost use Rattle.change_words.specs.Texts.{change_lines, change_text, entry_lines, refusal_text, resume_text};
ghost use Rattle.change_watch.specs.Following.{PutsLines, stop_lines};

use crate::WatchStop;
use bson_doc::Text;
use change_words::{WatchRefusal, is_of, refusal_line, set_change, set_resume};
use oplog_entry::{Entry, Op};
use rs_io::Sink;
use rs_optime::OpTime;

/// Puts a line for each change of the collection, using the memory of `text` for all of them.
pub fn put_changes<K: Sink>(
    collection: &Text,
    entries: &[Entry],
    sink: &mut K,
    text: &mut String,
) -> Result<(), WatchStop>
    requires lawful { All IsLawful entries.now }
    ensures puts { PutsLines (K.held sink.old) (K.held sink.new)
        (change_lines collection.now entries.now) result }
    ensures cause { HasCause (K.faults sink.old) (K.faults sink.new) (IsErrOf result WatchStop.WriteFault) }
    ensures steady { K.steady sink.old → K.steady sink.new × (result ≢ Err WatchStop.WriteFault) }
{
    for entry in entries {
        put_entry(collection, entry, sink, text)?;
    }
    Ok(())
}

fn put_entry<K: Sink>(
    collection: &Text,
    entry: &Entry,
    sink: &mut K,
    text: &mut String,
) -> Result<(), WatchStop>
    requires lawful { IsLawful entry.now }
    ensures puts { PutsLines (K.held sink.old) (K.held sink.new)
        (entry_lines collection.now entry.now) result }
    ensures cause { HasCause (K.faults sink.old) (K.faults sink.new) (IsErrOf result WatchStop.WriteFault) }
    ensures steady { K.steady sink.old → K.steady sink.new × (result ≢ Err WatchStop.WriteFault) }
{
    if is_of(collection, entry.op.or(&Op::Noop)) {
        put_change(entry, sink, text)
    } else {
        Ok(())
    }
}

fn put_change<K: Sink>(entry: &Entry, sink: &mut K, text: &mut String) -> Result<(), WatchStop>
    requires lawful { IsLawful entry.now }
    ensures puts { PutsLines (K.held sink.old) (K.held sink.new) (change_text entry.now ∷ []) result }
    ensures cause { HasCause (K.faults sink.old) (K.faults sink.new) (IsErrOf result WatchStop.WriteFault) }
    ensures steady { K.steady sink.old → K.steady sink.new × (result ≢ Err WatchStop.WriteFault) }
{
    set_change(entry, text)?;
    put_line(text.as_bytes(), sink)
}

/// Puts the line that says where to resume.
pub fn put_resume<K: Sink>(token: OpTime, sink: &mut K, text: &mut String) -> Result<(), WatchStop>
    ensures puts { PutsLines (K.held sink.old) (K.held sink.new) (resume_text token ∷ []) result }
    ensures cause { HasCause (K.faults sink.old) (K.faults sink.new) (IsErrOf result WatchStop.WriteFault) }
    ensures steady { K.steady sink.old → K.steady sink.new × (result ≢ Err WatchStop.WriteFault) }
{
    set_resume(token, text)?;
    put_line(text.as_bytes(), sink)
}

/// Puts the line of a refusal, if it stopped for one.
pub fn put_stop<K: Sink>(stop: WatchStop, sink: &mut K) -> Result<(), WatchStop>
    ensures puts { PutsLines (K.held sink.old) (K.held sink.new) (stop_lines stop) result }
    ensures none { stop_lines stop ≡ [] → result ≡ Ok tt }
    ensures cause { HasCause (K.faults sink.old) (K.faults sink.new) (IsErrOf result WatchStop.WriteFault) }
    ensures steady { K.steady sink.old → K.steady sink.new × (result ≢ Err WatchStop.WriteFault) }
{
    match stop {
        WatchStop::Refused(why) => put_refusal(why, sink),
        WatchStop::WriteFault => Ok(()),
        WatchStop::Memory => Ok(()),
    }
}

fn put_refusal<K: Sink>(why: WatchRefusal, sink: &mut K) -> Result<(), WatchStop>
    ensures puts { PutsLines (K.held sink.old) (K.held sink.new) (refusal_text why ∷ []) result }
    ensures cause { HasCause (K.faults sink.old) (K.faults sink.new) (IsErrOf result WatchStop.WriteFault) }
    ensures steady { K.steady sink.old → K.steady sink.new × (result ≢ Err WatchStop.WriteFault) }
{
    put_line(refusal_line(why).as_bytes(), sink)
}

fn put_line<K: Sink>(line: &[u8], sink: &mut K) -> Result<(), WatchStop>
    ensures puts { PutsLines (K.held sink.old) (K.held sink.new) (line.now ∷ []) result }
    ensures cause { HasCause (K.faults sink.old) (K.faults sink.new) (IsErrOf result WatchStop.WriteFault) }
    ensures steady { K.steady sink.old → K.steady sink.new × (result ≢ Err WatchStop.WriteFault) }
{
    sink.put(line)?;
    Ok(())
}
