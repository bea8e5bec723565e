ghost use Rattle.std.specs.Prelude.{◌≡◌, true, false, All, IfOk, OnErr};
ghost use Rattle.oplog_entry.specs.Lawful.{IsLawful};
ghost use Rattle.repl_msg.specs.Fetching.{continues};

use oplog_entry::Entry;
use repl_msg::FetchReply;
use rs_optime::OpTime;
use thiserror::Error;

/// The answer doesn't continue this log: the source doesn't have the log's last entry, or was asked when the
/// log ended elsewhere.
#[derive(Clone, Copy, Debug, PartialEq, Eq, Error)]
#[error("the entries don't go on where the log ends")]
pub struct OtherPlace;

/// The entries of an answer, if they continue a log that ends at `last`; otherwise `OtherPlace`.
pub fn accept(last: OpTime, reply: &FetchReply) -> Result<&[Entry], OtherPlace>
    ensures ok { IfOk result (λ entries.
        (continues last reply.now ≡ true) × (entries.now ≡ reply.now.entries)) }
    ensures lawful { IfOk result (λ entries. All IsLawful entries.now) }
    ensures err { OnErr result (continues last reply.now ≡ false) }
{
    if !reply.holds || reply.base != last {
        return Err(OtherPlace);
    }
    Ok(reply.entries.as_slice())
}
