// What a node does with a command or a message, step by step: it stores something, and continues once that is
// on its disk.
//
// All memory that the later steps need is reserved here beforehand, since a node mustn't run out of memory
// between two stores.

use crate::TakenReply;
use election_core::Tally;
use member_config::Config;
use repl_msg::{Message, VoteAsk, VoteRefusal};
use rs_optime::OpTime;
use set_model::{Ignored, LostList, Reply, Store};

/// How far a node has got with a command or a message.
#[derive(Drop)]
pub enum Turn {
    /// It has its reply, and the messages that it sends.
    Finished { reply: Reply, sent: Vec<Message> },
    /// It stores this, and then continues.
    Storing { item: Store, then: Continuation },
}

/// What the node does when the store is on its disk.
#[derive(Drop)]
pub enum Continuation {
    /// The node is a candidate in the next term, with its own vote, and asks the others.
    Campaign {
        next: u64,
        tally: Tally,
        sent: Vec<Message>,
    },
    /// It is primary, with its configuration in its term.
    Drain {
        config: Config,
    },
    /// `count` more entries are in the journal, and the log is durable up to the point.
    Flush {
        count: u64,
        point: OpTime,
    },
    /// The checkpoint has the documents as of this optime.
    Checkpoint {
        at: OpTime,
    },
    /// The primary uses its new configuration.
    Reconfig {
        config: Config,
    },
    /// The node enters a higher term, with its vote or none (`why` is the reason), and answers the candidate.
    VoteInTerm {
        next: u64,
        from: u32,
        ask: VoteAsk,
        why: Option<VoteRefusal>,
        sent: Vec<Message>,
    },
    /// It votes in the term that it is in, and answers the candidate.
    VoteGiven {
        next: u64,
        from: u32,
        ask: VoteAsk,
        why: Option<VoteRefusal>,
        sent: Vec<Message>,
    },
    /// It enters a message's higher term, and then takes the message.
    TookTerm {
        term: u64,
        told: MessageContinuation,
    },
    /// It uses a newer configuration that a heartbeat brought.
    Installed {
        config: Config,
        hearing: HeardBeat,
    },
    /// Its log is cut after the point.
    Cut {
        point: OpTime,
        removed: u64,
        lost: LostList,
    },
}

/// What the node does with a message, once it has entered its term.
#[derive(Drop)]
pub enum MessageContinuation {
    /// It sends this answer.
    Answered {
        next: u64,
        sent: Vec<Message>,
    },
    /// The answer's entries are appended to the log.
    Fetched {
        from: u32,
        reply: TakenReply,
    },
    /// A heartbeat is heard, with its configuration if the node installs that.
    Heard {
        newer: Option<NewConfig>,
        hearing: HeardBeat,
    },
    /// The node rolls back to the point.
    RolledBack {
        point: OpTime,
        removed: u64,
        lost: LostList,
    },
    /// The message isn't taken.
    Ignored(Ignored),
}

/// A newer configuration, twice: for the journal and for the node.
#[derive(Drop)]
pub struct NewConfig {
    pub journaled: Config,
    pub installed: Config,
}

/// What a heartbeat says about its sender, and the answer to it, if one is sent.
#[derive(Drop)]
pub struct HeardBeat {
    pub from: u32,
    pub visible: OpTime,
    pub primary: bool,
    pub commit: OpTime,
    pub answer: Option<Answer>,
}

/// The answer to a heartbeat: the number of its message, and the message.
#[derive(Drop)]
pub struct Answer {
    pub next: u64,
    pub sent: Vec<Message>,
}
