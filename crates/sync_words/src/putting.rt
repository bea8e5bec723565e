// Puts a text by one call.
ghost use Rattle.std.specs.Prelude.{◌≢◌, Err, IsErrOf};
ghost use Rattle.rs_io.specs.Fault.{HasCause};
ghost use Rattle.sync_words.specs.Putting.{PutsText};
ghost use Rattle.sync_words.specs.Texts.{refusal_text};

use crate::texts::refusal_line;
use crate::{SyncRefusal, SyncStop};
use rs_io::Sink;

/// Puts the line that says why no member is made.
///
/// # Errors
/// Those of `put_text`.
pub fn put_refusal<K: Sink>(why: SyncRefusal, sink: &mut K) -> Result<(), SyncStop>
    ensures puts { PutsText (K.held sink.old) (K.held sink.new) (refusal_text why) result }
    ensures no_disk { result ≢ Err SyncStop.DiskFault }
    ensures cause { HasCause (K.faults sink.old) (K.faults sink.new) (IsErrOf result SyncStop.WriteFault) }
    ensures steady { K.steady sink.old → K.steady sink.new × (result ≢ Err SyncStop.WriteFault) }
{
    put_text(refusal_line(why).as_bytes(), sink)
}

/// Puts a text.
///
/// # Errors
/// `WriteFault` where the sink failed, and `Memory`.
pub fn put_text<K: Sink>(text: &[u8], sink: &mut K) -> Result<(), SyncStop>
    ensures puts { PutsText (K.held sink.old) (K.held sink.new) text.now result }
    ensures no_disk { result ≢ Err SyncStop.DiskFault }
    ensures cause { HasCause (K.faults sink.old) (K.faults sink.new) (IsErrOf result SyncStop.WriteFault) }
    ensures steady { K.steady sink.old → K.steady sink.new × (result ≢ Err SyncStop.WriteFault) }
{
    sink.put(text)?;
    Ok(())
}
