// Checks a source's bytes.
ghost use Rattle.std.specs.Prelude.{◌≢◌, Err, IsErrOf};
ghost use Rattle.rs_io.specs.Fault.{HasCause};
ghost use Rattle.run_checker.specs.Verdicts.{count_text, no_trace_text};
ghost use Rattle.trace_check.specs.Ends.{Ends, PutsText};

use crate::CheckStop;
use rs_io::{Sink, Source, read_all};
use run_checker::{CheckError, check, write_count, write_no_trace};
use std::alloc::Global;

/// The most bytes that are checked.
const MOST_BYTES: usize = 67_108_864;

/// Reads a source to its end, and puts whether its bytes are a trace, by one call: `yes` with the number of
/// events, or the first line that shows that they aren't, with the reason.
///
/// # Errors
/// `NoTrace` where they aren't one; `TooLong` where there are more than 67,108,864; `ReadFault` and
/// `WriteFault` where the source or the sink failed. Nothing else is put.
pub fn check_source<S: Source, K: Sink>(
    alloc: Global,
    source: &mut S,
    sink: &mut K,
) -> Result<(), CheckStop>
    ensures ends { Ends (S.left source.old) (S.left source.new) (K.held sink.old) (K.held sink.new) result }
    ensures read_cause { HasCause (S.faults source.old) (S.faults source.new)
        (IsErrOf result CheckStop.ReadFault) }
    ensures write_cause { HasCause (K.faults sink.old) (K.faults sink.new)
        (IsErrOf result CheckStop.WriteFault) }
    ensures steady_source { S.steady source.old
        → S.steady source.new × (result ≢ Err CheckStop.ReadFault) }
    ensures steady_sink { K.steady sink.old → K.steady sink.new × (result ≢ Err CheckStop.WriteFault) }
{
    let bytes = read_all(alloc, source, MOST_BYTES)?;
    match check(alloc, &bytes) {
        Ok(count) => put_count(alloc, count, sink),
        Err(CheckError::Memory) => Err(CheckStop::Memory),
        Err(why) => {
            put_no_trace(alloc, why, sink)?;
            Err(CheckStop::NoTrace)
        }
    }
}

fn put_count<K: Sink>(alloc: Global, count: u64, sink: &mut K) -> Result<(), CheckStop>
    ensures puts { PutsText (K.held sink.old) (K.held sink.new) (count_text count) result }
    ensures cause { HasCause (K.faults sink.old) (K.faults sink.new) (IsErrOf result CheckStop.WriteFault) }
    ensures steady { K.steady sink.old → K.steady sink.new × (result ≢ Err CheckStop.WriteFault) }
{
    let mut text = String::new(alloc);
    write_count(count, &mut text)?;
    sink.put(text.as_bytes())?;
    Ok(())
}

fn put_no_trace<K: Sink>(alloc: Global, why: CheckError, sink: &mut K) -> Result<(), CheckStop>
    ensures puts { PutsText (K.held sink.old) (K.held sink.new) (no_trace_text why) result }
    ensures cause { HasCause (K.faults sink.old) (K.faults sink.new) (IsErrOf result CheckStop.WriteFault) }
    ensures steady { K.steady sink.old → K.steady sink.new × (result ≢ Err CheckStop.WriteFault) }
{
    let mut text = String::new(alloc);
    write_no_trace(why, &mut text)?;
    sink.put(text.as_bytes())?;
    Ok(())
}
