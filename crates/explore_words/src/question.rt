// What a question is.
use crate::lists::{Acts, Commands, Looks, Wants};
use bson_doc::{Text, Value};
use script_words::SetLine;
use set_model::{AckConcern, Command, ReadLevel, Target};

/// A question: what may be done in a set from a beginning on, and what is looked for.
#[derive(Drop)]
pub struct Question {
    /// The sizes of the set.
    pub sizes: SetLine,
    /// The commands that are done first, in order.
    pub beginning: Commands,
    /// What may be done then, in any order: 1 to 1,000 acts.
    pub acts: Acts,
    /// What is looked for, one after another: 1 to 100 wants.
    pub wants: Wants,
}

/// Something that may be done: 1 to 1,000 lines, one after another.
#[derive(Drop)]
pub struct Act {
    /// How often it may be done in a run, from 1 to 1,000 times; any number of times, where there is none.
    pub limit: Option<u32>,
    /// Whether its first line delivers any one message that was ever sent.
    pub any_message: bool,
    /// The commands of its other lines.
    pub commands: Commands,
}

/// Something that is looked for.
#[derive(Drop)]
pub enum Want {
    /// An event whose reply begins with this text.
    Event(WantedEvent, Text),
    /// A moment at which each look is met. It has at least one.
    Seen(Looks),
}

/// Which events are looked for.
#[derive(Drop)]
pub enum WantedEvent {
    /// The delivery of a message.
    Delivery(Route),
    /// A heartbeat.
    Heartbeat(Route),
    /// A report.
    Report(Route),
    /// A question for what another node has after the own commit point.
    Common(Route),
    /// This command of this node. Where there is none it is the command of any node, and names node 0.
    Command(Option<u32>, Command),
}

/// From which node to which; any one, where there is none.
#[derive(Clone, Copy, Debug, PartialEq, Eq)]
pub struct Route {
    pub from: Option<u32>,
    pub to: Option<u32>,
}

/// A look at a node. It is met where what it shows begins with the text.
#[derive(Drop)]
pub struct Look {
    /// The node. Where there is none it is any one, the same in all such looks of a want.
    pub node: Option<u32>,
    pub sight: Sight,
    pub text: Text,
}

/// What a look shows. Nothing changes by it.
#[derive(Drop)]
pub enum Sight {
    /// The document of a key.
    Read {
        level: ReadLevel,
        collection: Text,
        id: Value,
    },
    /// All documents.
    Dump(ReadLevel),
    /// The entries that are written.
    Log,
    /// Role, term, vote, points and configuration.
    State,
    /// The documents that the last rollback touched, as they were.
    Rolled,
    /// Whether the target is as safe as the concern asks.
    Ack {
        target: Target,
        concern: AckConcern,
    },
    /// Whether the last entry in the node's log that wrote this document is as safe as the concern asks.
    /// There is nothing to be shown without such an entry, nor at a node that is down.
    AckLast {
        collection: Text,
        id: Value,
        concern: AckConcern,
    },
}
