// What the replies to a linear read's commands show.
ghost use Rattle.std.specs.Prelude.{◌≡◌};
ghost use Rattle.linear_read.specs.Points.{document_shown, is_flushed, message_replied, message_sent, note_written, refusal_of, term_shown, took_some};

use crate::LinearAnswer;
use rs_optime::OpTime;
use set_model::{Refusal, Reply, Role};

/// The term in a primary's state.
pub(crate) fn term_shown(reply: &Reply) -> Result<u64, Refusal>
    ensures { result ≡ term_shown reply.now }
{
    match reply {
        Reply::State {
            role: Role::Primary,
            term,
            ..
        } => Ok(*term),
        Reply::Refused(why) => Err(*why),
        _ => Err(Refusal::NotPrimary),
    }
}

/// What a local read showed.
pub(crate) fn document_shown(reply: Reply) -> Result<LinearAnswer, Refusal>
    ensures { result ≡ document_shown reply }
{
    match reply {
        Reply::Found(document) => Ok(LinearAnswer::Found(document)),
        Reply::Refused(why) => Err(why),
        _ => Ok(LinearAnswer::Missing),
    }
}

/// The optime of a note that was written in this term.
pub(crate) fn note_written(term: u64, reply: &Reply) -> Result<OpTime, Refusal>
    ensures { result ≡ note_written term reply.now }
{
    match reply {
        Reply::Written(at) => {
            if at.term == term {
                Ok(*at)
            } else {
                Err(Refusal::SteppedDown(term))
            }
        }
        Reply::Refused(why) => Err(*why),
        _ => Err(Refusal::SteppedDown(term)),
    }
}

/// The message that a command sent.
pub(crate) fn message_sent(reply: &Reply) -> Option<u64>
    ensures { result ≡ message_sent reply.now }
{
    match reply {
        Reply::Sent(message) => Some(*message),
        Reply::SentTo { message, .. } => Some(*message),
        Reply::Replied(message) => Some(*message),
        _ => None,
    }
}

/// The message that answers a delivery.
pub(crate) fn message_replied(reply: &Option<Reply>) -> Option<u64>
    ensures { result ≡ message_replied reply.now }
{
    match reply {
        Some(reply) => message_sent(reply),
        None => None,
    }
}

/// Whether a flush made something durable.
pub(crate) fn is_flushed(reply: &Reply) -> bool
    ensures { result ≡ is_flushed reply.now }
{
    matches!(reply, Reply::Flushed { .. })
}

/// Whether entries were taken, the last of them before an optime.
pub(crate) fn took_some(at: OpTime, reply: &Option<Reply>) -> bool
    ensures { result ≡ took_some at reply.now }
{
    match reply {
        Some(Reply::Took { count, last }) => *count != 0 && *last < at,
        _ => false,
    }
}

/// Why a command was refused.
pub(crate) fn refusal_of(reply: &Reply) -> Option<Refusal>
    ensures { result ≡ refusal_of reply.now }
{
    match reply {
        Reply::Refused(why) => Some(*why),
        _ => None,
    }
}
