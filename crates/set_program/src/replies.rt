// Replies, each put by one call.
ghost use Rattle.std.specs.Prelude.{◌≢◌, Err, IsErrOf};
ghost use Rattle.rs_io.specs.Fault.{HasCause};
ghost use Rattle.transcript.specs.Replies.{line_text};
ghost use Rattle.set_program.specs.Plays.{PutsEach, PutsText};

use crate::stop::Stop;
use rs_io::Sink;
use set_model::Reply;
use transcript::set_reply;

/// Puts replies one after another. Each is first written into `text`, whose memory they all use.
pub fn put_replies<K: Sink>(
    replies: &[(u32, Reply)],
    sink: &mut K,
    text: &mut String,
) -> Result<(), Stop>
    ensures puts { PutsEach (K.held sink.old) (K.held sink.new) replies.now result }
    ensures cause { HasCause (K.faults sink.old) (K.faults sink.new) (IsErrOf result Stop.WriteFault) }
    ensures steady { K.steady sink.old → K.steady sink.new × (result ≢ Err Stop.WriteFault) }
{
    for (line, reply) in replies {
        put_reply(*line, reply, sink, text)?;
    }
    Ok(())
}

fn put_reply<K: Sink>(line: u32, reply: &Reply, sink: &mut K, text: &mut String) -> Result<(), Stop>
    ensures puts { PutsText (K.held sink.old) (K.held sink.new) (line_text (line, reply.now)) result }
    ensures cause { HasCause (K.faults sink.old) (K.faults sink.new) (IsErrOf result Stop.WriteFault) }
    ensures steady { K.steady sink.old → K.steady sink.new × (result ≢ Err Stop.WriteFault) }
{
    set_reply(line, reply, text)?;
    sink.put(text.as_bytes())?;
    Ok(())
}
