// The first word of a line.
ghost use Rattle.std.specs.Prelude.{◌≡◌};
ghost use Rattle.script_words.specs.Commands.{write_kind, other_verb, node_verb, as_verb, verb_of, node_shape, shape_of, as_command, keyword_of, keyword_shape};

use crate::shape::Shape;

/// The kind of a write.
#[derive(Clone, Copy, Debug, PartialEq, Eq)]
pub enum WriteKind {
    Insert,
    Replace,
    Update,
    Delete,
}

/// What a node is asked for.
#[derive(Clone, Copy, Debug, PartialEq, Eq)]
pub enum NodeVerb {
    Write(WriteKind),
    Retry,
    Note,
    Begin,
    Commit,
    Abort,
    Ack,
    Read,
    Dump,
    Log,
    State,
    Rolled,
    Campaign,
    DryRun,
    Drain,
    StepDown,
    Heartbeat,
    Report,
    Common,
    Fetch,
    Apply,
    Flush,
    Checkpoint,
    Reconfig,
    Crash,
    Restart,
    DiskFail,
    Clock,
}

/// What a line after the `set` line says.
#[derive(Clone, Copy, Debug, PartialEq, Eq)]
pub enum Keyword {
    /// A block begins.
    Par,
    /// A thread of a block begins.
    Thread,
    /// The block ends.
    End,
    Command(Verb),
}

/// What a command asks for.
#[derive(Clone, Copy, Debug, PartialEq, Eq)]
pub enum Verb {
    /// A message arrives.
    Deliver,
    /// The node that the next word names is asked for something.
    Node(NodeVerb),
}

impl WriteKind {
    /// The kind that a word names.
    pub fn named(word: &str) -> Option<WriteKind>
        ensures { result ≡ write_kind word.now }
    {
        match word.as_bytes() {
            b"insert" => Some(WriteKind::Insert),
            b"replace" => Some(WriteKind::Replace),
            b"update" => Some(WriteKind::Update),
            b"delete" => Some(WriteKind::Delete),
            _ => None,
        }
    }
}

impl NodeVerb {
    fn named(word: &str) -> Option<NodeVerb>
        ensures { result ≡ node_verb word.now }
    {
        match WriteKind::named(word) {
            Some(kind) => Some(NodeVerb::Write(kind)),
            None => other_verb(word),
        }
    }

    fn shape(self) -> Shape
        ensures { result ≡ node_shape self }
    {
        match self {
            NodeVerb::Write(_) => Shape::Value { before: 2 },
            NodeVerb::Retry => Shape::Value { before: 5 },
            NodeVerb::Begin => Shape::Value { before: 4 },
            NodeVerb::Read => Shape::Value { before: 3 },
            NodeVerb::Reconfig => Shape::Value { before: 1 },
            NodeVerb::Log
            | NodeVerb::State
            | NodeVerb::Rolled
            | NodeVerb::Campaign
            | NodeVerb::DryRun
            | NodeVerb::Drain
            | NodeVerb::StepDown
            | NodeVerb::Fetch
            | NodeVerb::Flush
            | NodeVerb::Checkpoint
            | NodeVerb::Restart
            | NodeVerb::Note => Shape::Words { least: 1, most: 1 },
            NodeVerb::Commit
            | NodeVerb::Abort
            | NodeVerb::Dump
            | NodeVerb::Heartbeat
            | NodeVerb::Report
            | NodeVerb::Common
            | NodeVerb::Clock => Shape::Words { least: 2, most: 2 },
            NodeVerb::Apply | NodeVerb::Crash => Shape::Words { least: 1, most: 2 },
            NodeVerb::Ack => Shape::Words { least: 3, most: 3 },
            NodeVerb::DiskFail => Shape::Words { least: 3, most: 4 },
        }
    }
}

/// What a word that isn't a write's asks a node for. Words are compared in turn, so the most frequent ones
/// come first.
fn other_verb(word: &str) -> Option<NodeVerb>
    ensures { result ≡ other_verb word.now }
{
    match word {
        "heartbeat" => Some(NodeVerb::Heartbeat),
        "fetch" => Some(NodeVerb::Fetch),
        "apply" => Some(NodeVerb::Apply),
        "flush" => Some(NodeVerb::Flush),
        "report" => Some(NodeVerb::Report),
        "ack" => Some(NodeVerb::Ack),
        "retry" => Some(NodeVerb::Retry),
        "note" => Some(NodeVerb::Note),
        "begin" => Some(NodeVerb::Begin),
        "commit" => Some(NodeVerb::Commit),
        "abort" => Some(NodeVerb::Abort),
        "read" => Some(NodeVerb::Read),
        "dump" => Some(NodeVerb::Dump),
        "log" => Some(NodeVerb::Log),
        "state" => Some(NodeVerb::State),
        "rolled" => Some(NodeVerb::Rolled),
        "campaign" => Some(NodeVerb::Campaign),
        "dryrun" => Some(NodeVerb::DryRun),
        "drain" => Some(NodeVerb::Drain),
        "stepdown" => Some(NodeVerb::StepDown),
        "common" => Some(NodeVerb::Common),
        "checkpoint" => Some(NodeVerb::Checkpoint),
        "reconfig" => Some(NodeVerb::Reconfig),
        "crash" => Some(NodeVerb::Crash),
        "restart" => Some(NodeVerb::Restart),
        "diskfail" => Some(NodeVerb::DiskFail),
        "clock" => Some(NodeVerb::Clock),
        _ => None,
    }
}

/// What a first word asks a node for.
fn asked_of_node(word: &str) -> Option<Verb>
    ensures { result ≡ as_verb (node_verb word.now) }
{
    match NodeVerb::named(word) {
        Some(verb) => Some(Verb::Node(verb)),
        None => None,
    }
}

impl Verb {
    /// What a first word asks for.
    pub fn named(word: &str) -> Option<Verb>
        ensures { result ≡ verb_of word.now }
    {
        match word.as_bytes() {
            b"deliver" => Some(Verb::Deliver),
            _ => asked_of_node(word),
        }
    }

    /// How many words follow this first word on a line.
    pub fn shape(self) -> Shape
        ensures { result ≡ shape_of self }
    {
        match self {
            Verb::Deliver => Shape::Words { least: 1, most: 2 },
            Verb::Node(verb) => verb.shape(),
        }
    }
}

impl Keyword {
    /// What a first word says, if it is known.
    pub fn named(word: &str) -> Option<Keyword>
        ensures { result ≡ keyword_of word.now }
    {
        match word.as_bytes() {
            b"par" => Some(Keyword::Par),
            b"thread" => Some(Keyword::Thread),
            b"end" => Some(Keyword::End),
            _ => command_named(word),
        }
    }

    /// How many words follow this first word on a line.
    pub fn shape(self) -> Shape
        ensures { result ≡ keyword_shape self }
    {
        match self {
            Keyword::Command(verb) => verb.shape(),
            Keyword::Par | Keyword::Thread | Keyword::End => Shape::Words { least: 0, most: 0 },
        }
    }
}

/// The command that a first word asks for.
fn command_named(word: &str) -> Option<Keyword>
    ensures { result ≡ as_command (verb_of word.now) }
{
    match Verb::named(word) {
        Some(verb) => Some(Keyword::Command(verb)),
        None => None,
    }
}
