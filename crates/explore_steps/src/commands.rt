// Whether two commands are the same. What a command says is taken apart into its word, its numbers and what
// else it names, and two commands are compared part by part.
ghost use Rattle.std.specs.Prelude.{◌≡◌, ◌↔◌, IsTrue};
ghost use Rattle.std.specs.Option.{option_copied, option_eq};
ghost use Rattle.std.specs.Str.{bytes_eq};
ghost use Rattle.bson_doc.specs.Same.{same_fields};
ghost use Rattle.question_laws.specs.Meeting.{at_first};
ghost use Rattle.explore_steps.specs.Words as words;

use bson_doc::{Doc, Text, Value};
use doc_update::WriteOp;
use member_config::Config;
use set_model::{AckConcern, Command, DiskName, ReadLevel, Target};

/// Whether two commands are the same.
pub(crate) fn same_command(one: &Command, other: &Command) -> bool
    ensures { IsTrue result ↔ one.now ≡ other.now }
{
    one.actor() == other.actor() && same_but_node(one, other)
}

/// Whether a command is one of node 0, or of no node.
pub(crate) fn is_at_first(command: &Command) -> bool
    ensures { IsTrue result ↔ at_first command.now ≡ command.now }
{
    match command.actor() {
        Some(node) => node == 0,
        None => true,
    }
}

/// Whether two commands are the same, but for the nodes that do them.
pub(crate) fn same_but_node(one: &Command, other: &Command) -> bool
    ensures { IsTrue result ↔ at_first one.now ≡ at_first other.now }
{
    say_the_same(one, other)
}

fn say_the_same(one: &Command, other: &Command) -> bool
    ensures { result ≡ words.say_the_same one.now other.now }
{
    same_words(one, other) && same_names(one, other) && same_contents(one, other)
}

fn same_words(one: &Command, other: &Command) -> bool
    ensures { result ≡ words.same_words one.now other.now }
{
    word(one) == word(other) && form(one) == form(other) && numbers(one) == numbers(other)
}

fn same_names(one: &Command, other: &Command) -> bool
    ensures { result ≡ words.same_names one.now other.now }
{
    same_texts(collection(one), collection(other)) && same_values(id(one), id(other))
}

fn same_contents(one: &Command, other: &Command) -> bool
    ensures { result ≡ words.same_contents one.now other.now }
{
    same_documents(document(one), document(other))
        && same_writes(write(one), write(other))
        && same_configs(config(one), config(other))
}

/// A number for the word of a command.
fn word(command: &Command) -> u32
    ensures { result ≡ words.word_of command.now }
{
    match command {
        Command::Campaign { .. } => 0,
        Command::Drain { .. } => 1,
        Command::Insert { .. } => 2,
        Command::Replace { .. } => 3,
        Command::Update { .. } => 4,
        Command::Delete { .. } => 5,
        Command::Retry { .. } => 6,
        Command::Note { .. } => 7,
        Command::Begin { .. } => 8,
        Command::Commit { .. } => 9,
        Command::Abort { .. } => 10,
        Command::Ack { .. } => 11,
        Command::Read { .. } => 12,
        Command::Dump { .. } => 13,
        Command::Log { .. } => 14,
        Command::State { .. } => 15,
        Command::Rolled { .. } => 16,
        Command::DryRun { .. } => 17,
        Command::StepDown { .. } => 18,
        Command::Heartbeat { .. } => 19,
        Command::Report { .. } => 20,
        Command::Common { .. } => 21,
        Command::Fetch { .. } => 22,
        Command::Deliver { .. } => 23,
        Command::DeliverLatest { .. } => 24,
        Command::Apply { .. } => 25,
        Command::Flush { .. } => 26,
        Command::Checkpoint { .. } => 27,
        Command::Reconfig { .. } => 28,
        Command::Crash { .. } => 29,
        Command::Restart { .. } => 30,
        Command::DiskFail { .. } => 31,
        Command::Clock { .. } => 32,
    }
}

/// Which of two forms it has: with the optime of what is acknowledged or with its writer, without a pick or
/// with one.
fn form(command: &Command) -> u32
    ensures { result ≡ words.form_of command.now }
{
    match command {
        Command::Ack {
            target: Target::Writer(_),
            ..
        } => 1,
        Command::DiskFail { pick: Some(_), .. } => 1,
        _ => 0,
    }
}

/// Its numbers, and 0 for each that it doesn't have.
fn numbers(command: &Command) -> (u64, u64, u64)
    ensures { result ≡ words.numbers_of command.now }
{
    match command {
        Command::Retry { session, .. } => (u64::from(session.id), u64::from(session.number), 0),
        Command::Begin { writer, .. }
        | Command::Commit { writer, .. }
        | Command::Abort { writer, .. } => (u64::from(*writer), 0, 0),
        Command::Ack {
            target,
            concern,
            ..
        } => ack_numbers(*target, *concern),
        Command::Read { level, .. } | Command::Dump { level, .. } => (level_number(*level), 0, 0),
        Command::Heartbeat { to, .. } | Command::Report { to, .. } | Command::Common { to, .. } => {
            (u64::from(*to), 0, 0)
        }
        Command::Deliver { message } => (*message, 0, 0),
        Command::DeliverLatest { from, to } => (u64::from(*from), u64::from(*to), 0),
        Command::Apply { workers, .. } => (u64::from(*workers), 0, 0),
        Command::Crash { pick, .. } => (*pick, 0, 0),
        Command::DiskFail {
            disk,
            call,
            pick,
            ..
        } => (disk_number(*disk), u64::from(*call), pick.unwrap_or(0)),
        Command::Clock { seconds, .. } => (u64::from(*seconds), 0, 0),
        _ => (0, 0, 0),
    }
}

fn ack_numbers(target: Target, concern: AckConcern) -> (u64, u64, u64)
    ensures { result ≡ words.ack_numbers target concern }
{
    let concern = match concern {
        AckConcern::Majority => 0,
        AckConcern::Count(count) => u64::from(count) + 1,
    };
    match target {
        Target::At(at) => (at.term, at.ts, concern),
        Target::Writer(writer) => (u64::from(writer), 0, concern),
    }
}

fn level_number(level: ReadLevel) -> u64
    ensures { result ≡ words.level_number level }
{
    match level {
        ReadLevel::Local => 0,
        ReadLevel::Majority => 1,
    }
}

fn disk_number(disk: DiskName) -> u64
    ensures { result ≡ words.disk_number disk }
{
    match disk {
        DiskName::Journal => 0,
        DiskName::Checkpoint => 1,
    }
}

fn collection(command: &Command) -> Option<&Text>
    ensures { option_copied result ≡ words.collection_of command.now }
{
    match command {
        Command::Insert { collection, .. }
        | Command::Replace { collection, .. }
        | Command::Update { collection, .. }
        | Command::Delete { collection, .. }
        | Command::Read { collection, .. } => Some(collection),
        _ => None,
    }
}

fn id(command: &Command) -> Option<&Value>
    ensures { option_copied result ≡ words.id_of command.now }
{
    match command {
        Command::Replace { id, .. }
        | Command::Update { id, .. }
        | Command::Delete { id, .. }
        | Command::Read { id, .. } => Some(id),
        _ => None,
    }
}

/// A document that is written, or operators.
fn document(command: &Command) -> Option<&Doc>
    ensures { option_copied result ≡ words.document_of command.now }
{
    match command {
        Command::Insert { document, .. } | Command::Replace { document, .. } => Some(document),
        Command::Update { operators, .. } => Some(operators),
        _ => None,
    }
}

fn write(command: &Command) -> Option<&WriteOp>
    ensures { option_copied result ≡ words.write_of command.now }
{
    match command {
        Command::Retry { op, .. } | Command::Begin { op, .. } => Some(op),
        _ => None,
    }
}

fn config(command: &Command) -> Option<&Config>
    ensures { option_copied result ≡ words.config_of command.now }
{
    match command {
        Command::Reconfig { config, .. } => Some(config),
        _ => None,
    }
}

fn same_texts(one: Option<&Text>, other: Option<&Text>) -> bool
    ensures { result ≡ option_eq bytes_eq (option_copied one.entry) (option_copied other.entry) }
{
    match (one, other) {
        (Some(one), Some(other)) => one == other,
        (None, None) => true,
        _ => false,
    }
}

fn same_values(one: Option<&Value>, other: Option<&Value>) -> bool
    ensures { result ≡ option_eq words.same_value (option_copied one.entry) (option_copied other.entry) }
{
    match (one, other) {
        (Some(one), Some(other)) => one == other,
        (None, None) => true,
        _ => false,
    }
}

fn same_documents(one: Option<&Doc>, other: Option<&Doc>) -> bool
    ensures { result ≡ option_eq same_fields (option_copied one.entry) (option_copied other.entry) }
{
    match (one, other) {
        (Some(one), Some(other)) => one == other,
        (None, None) => true,
        _ => false,
    }
}

fn same_writes(one: Option<&WriteOp>, other: Option<&WriteOp>) -> bool
    ensures { result ≡ option_eq words.same_write (option_copied one.entry) (option_copied other.entry) }
{
    match (one, other) {
        (Some(one), Some(other)) => same_write(one, other),
        (None, None) => true,
        _ => false,
    }
}

fn same_configs(one: Option<&Config>, other: Option<&Config>) -> bool
    ensures { result ≡ option_eq words.same_config (option_copied one.entry) (option_copied other.entry) }
{
    match (one, other) {
        (Some(one), Some(other)) => same_config(one, other),
        (None, None) => true,
        _ => false,
    }
}

fn same_write(one: &WriteOp, other: &WriteOp) -> bool
    ensures { result ≡ words.same_write one.now other.now }
{
    match (one, other) {
        (
            WriteOp::Insert { ns, doc },
            WriteOp::Insert {
                ns: ns_2,
                doc: doc_2,
            },
        ) => { ns == ns_2 && doc == doc_2 }
        (
            WriteOp::Replace { ns, id, doc },
            WriteOp::Replace {
                ns: ns_2,
                id: id_2,
                doc: doc_2,
            },
        ) => ns == ns_2 && id == id_2 && doc == doc_2,
        (
            WriteOp::Update { ns, id, operators },
            WriteOp::Update {
                ns: ns_2,
                id: id_2,
                operators: operators_2,
            },
        ) => ns == ns_2 && id == id_2 && operators == operators_2,
        (WriteOp::Delete { ns, id }, WriteOp::Delete { ns: ns_2, id: id_2 }) => {
            ns == ns_2 && id == id_2
        }
        _ => false,
    }
}

fn same_config(one: &Config, other: &Config) -> bool
    ensures { result ≡ words.same_config one.now other.now }
{
    one.term == other.term
        && one.version == other.version
        && one.chaining == other.chaining
        && one.members.as_slice() == other.members.as_slice()
}
