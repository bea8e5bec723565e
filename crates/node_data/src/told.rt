// What was told of a log since it changed last: whoever asks for the same again gets the same list.
ghost use Rattle.std.specs.Prelude.{◌≡◌, List, IfOk, IfSome};
ghost use Rattle.oplog_entry.specs.Visible.{log_up_to};
ghost use Rattle.oplog_entry.specs.declared.entry.Entry.{Entry as AnEntry};
ghost use Rattle.repl_msg.specs.Logs.{log_after};
ghost use Rattle.set_model.specs.Rollback.{optimes_of};
ghost use Rattle.node_data.specs.Told.{IsAnswer, IsTold};

use bson_doc::Mem;
use oplog_entry::Entry;
use repl_msg::{FetchReply, OptimeList};
use rs_optime::OpTime;
use std::alloc::Global;

/// So many answers of a kind are kept at most: more than a set has nodes that ask.
const MOST_KEPT: usize = 64;

/// An answer of fewer entries is made anew as fast.
const LEAST_KEPT: usize = 2;

/// Answers about a log as it is, so that whoever asks the same again gets the same list. At most 64 of a kind
/// are kept; `clear` drops them where the log changes.
#[derive(Drop)]
pub struct Told {
    replies: Vec<FetchReply>,
    lists: Vec<ToldOptimes>,
}

/// The optimes of the entries after an optime, up to another one.
#[derive(Drop)]
pub(crate) struct ToldOptimes {
    after: OpTime,
    to: OpTime,
    optimes: OptimeList,
}

impl Told {
    /// No answer.
    pub fn new(alloc: Global) -> Self
        ensures { (log : List AnEntry) → IsTold log result }
    {
        Told {
            replies: Vec::new(alloc),
            lists: Vec::new(alloc),
        }
    }

    /// Drops all answers, since the log changes.
    pub fn clear(&mut self)
        ensures { (log : List AnEntry) → IsTold log self.new }
    {
        if self.replies.is_empty() && self.lists.is_empty() {
            return;
        }
        self.replies.clear();
        self.lists.clear();
    }

    /// The answer that was given for a base, where the log was visible up to `visible`.
    pub fn reply(&self, visible: OpTime, base: OpTime) -> Option<&FetchReply>
        ensures kept { (log : List AnEntry) → IsTold log self.now
            → IfSome result (λ reply. IsAnswer log reply.now) }
        ensures asked { IfSome result (λ reply. (reply.now.visible ≡ visible) × (reply.now.base ≡ base)) }
    {
        for reply in &self.replies {
            if reply.base == base && reply.visible == visible {
                return Some(reply);
            }
        }
        None
    }

    /// Keeps an answer of more than one entry if there is memory for it, in place of all others once there
    /// are 64.
    pub fn keep_reply(&mut self, reply: FetchReply)
        ensures { (log : List AnEntry) → IsTold log self.old → IsAnswer log reply → IsTold log self.new }
    {
        if reply.entries.as_slice().len() < LEAST_KEPT {
            return;
        }
        if self.replies.len() >= MOST_KEPT {
            self.replies.clear();
        }
        let _ = self.replies.push(reply);
    }

    /// The optimes that were told as those after an optime, up to another one.
    pub fn optimes(&self, after: OpTime, to: OpTime) -> Option<&OptimeList>
        ensures { (log : List AnEntry) → IsTold log self.now
            → IfSome result (λ list. list.now ≡ optimes_of (log_after after (log_up_to to log))) }
    {
        for told in &self.lists {
            if told.after == after && told.to == to {
                return Some(&told.optimes);
            }
        }
        None
    }

    /// Keeps the optimes after `after` up to `to` if there is memory for them, in place of all others once
    /// there are 64.
    pub fn keep_optimes(&mut self, after: OpTime, to: OpTime, optimes: OptimeList)
        ensures { (log : List AnEntry) → IsTold log self.old
            → optimes ≡ optimes_of (log_after after (log_up_to to log)) → IsTold log self.new }
    {
        if self.lists.len() >= MOST_KEPT {
            self.lists.clear();
        }
        let _ = self.lists.push(ToldOptimes { after, to, optimes });
    }
}

/// The same answer at another commit point and in another role, with the same list of entries. The only error
/// is out of memory.
pub fn told_again(kept: &FetchReply, commit: OpTime, primary: bool) -> Mem<FetchReply>
    ensures { IfOk result (λ reply. reply ≡ record kept.now { commit = commit; primary = primary }) }
{
    let mut reply = kept.copy()?;
    reply.commit = commit;
    reply.primary = primary;
    Ok(reply)
}

/// The optimes of some entries, in their order. The only error is out of memory.
pub fn optimes_of(alloc: Global, entries: &[Entry]) -> Mem<OptimeList>
    ensures { IfOk result (λ list. list ≡ optimes_of entries.now) }
{
    let mut optimes = Vec::with_capacity(alloc, entries.len())?;
    for entry in entries {
        optimes.push(entry.optime)?;
    }
    OptimeList::new(alloc, optimes)
}
