// What messages say: whether two say the same, and a number by which they are looked up.
ghost use Rattle.std.specs.Prelude.{◌≡◌, ◌↔◌, IsTrue};

use crate::hashing::folded;
use checker_node::{mixed, with_optime};
use checker_tables::same_entries;
use repl_msg::{Beat, Body, FetchReply, Message, VoteAsk, VoteRefusal};
use rs_optime::OpTime;

/// Whether two messages are the same.
pub fn same_message(one: &Message, other: &Message) -> bool
    ensures { IsTrue result ↔ one.now ≡ other.now }
{
    one.from == other.from
        && one.to == other.to
        && one.term == other.term
        && same_body(&one.body, &other.body)
}

fn same_body(one: &Body, other: &Body) -> bool
    ensures { IsTrue result ↔ one.now ≡ other.now }
{
    match (one, other) {
        (Body::Fetch { base }, Body::Fetch { base: base_2 }) => base == base_2,
        (Body::FetchReply(reply), Body::FetchReply(reply_2)) => same_fetched(reply, reply_2),
        (
            Body::Report { config, durable },
            Body::Report {
                config: config_2,
                durable: durable_2,
            },
        ) => config == config_2 && durable == durable_2,
        (Body::VoteAsk(ask), Body::VoteAsk(ask_2)) => ask == ask_2,
        (
            Body::VoteReply {
                asked,
                dry,
                refused,
            },
            Body::VoteReply {
                asked: asked_2,
                dry: dry_2,
                refused: refused_2,
            },
        ) => asked == asked_2 && dry == dry_2 && refused == refused_2,
        (Body::Heartbeat(beat), Body::Heartbeat(beat_2)) => same_beat(beat, beat_2),
        (Body::HeartbeatReply(beat), Body::HeartbeatReply(beat_2)) => same_beat(beat, beat_2),
        (Body::CommonAsk { commit }, Body::CommonAsk { commit: commit_2 }) => commit == commit_2,
        (
            Body::CommonReply {
                after,
                optimes,
                visible,
            },
            Body::CommonReply {
                after: after_2,
                optimes: optimes_2,
                visible: visible_2,
            },
        ) => {
            after == after_2
                && visible == visible_2
                && same_optimes(optimes.as_slice(), optimes_2.as_slice())
        }
        _ => false,
    }
}

fn same_beat(one: &Beat, other: &Beat) -> bool
    ensures { IsTrue result ↔ one.now ≡ other.now }
{
    one.config.same(&other.config)
        && one.commit == other.commit
        && one.visible == other.visible
        && one.primary == other.primary
}

fn same_fetched(one: &FetchReply, other: &FetchReply) -> bool
    ensures { IsTrue result ↔ one.now ≡ other.now }
{
    one.base == other.base
        && one.holds == other.holds
        && one.visible == other.visible
        && one.commit == other.commit
        && one.primary == other.primary
        && same_entries(one.entries.as_slice(), other.entries.as_slice())
}

fn same_optimes(one: &[OpTime], other: &[OpTime]) -> bool
    ensures { IsTrue result ↔ one.now ≡ other.now }
{
    one == other
}

/// The hash of a message.
pub(crate) fn message_hash(message: &Message) -> u32 {
    let ends = mixed(mixed(0, u64::from(message.from)), u64::from(message.to));
    folded(with_body(mixed(ends, message.term), &message.body))
}

fn with_body(hash: u64, body: &Body) -> u64 {
    match body {
        Body::Fetch { base } => with_optime(mixed(hash, 1), *base),
        Body::FetchReply(reply) => with_fetched(mixed(hash, 2), reply),
        Body::Report { config, durable } => {
            with_optime(with_pair(mixed(hash, 3), *config), *durable)
        }
        Body::VoteAsk(ask) => with_ask(mixed(hash, 4), *ask),
        Body::VoteReply {
            asked,
            dry,
            refused,
        } => {
            let asked = mixed(mixed(hash, 5), *asked);
            mixed(mixed(asked, u64::from(*dry)), refusal_number(*refused))
        }
        Body::Heartbeat(beat) => with_beat(mixed(hash, 6), beat),
        Body::HeartbeatReply(beat) => with_beat(mixed(hash, 7), beat),
        Body::CommonAsk { commit } => with_optime(mixed(hash, 8), *commit),
        Body::CommonReply {
            after,
            optimes,
            visible,
        } => {
            let count = optimes.as_slice().len() as u64;
            mixed(
                with_optime(with_optime(mixed(hash, 9), *after), *visible),
                count,
            )
        }
    }
}

fn with_fetched(hash: u64, reply: &FetchReply) -> u64 {
    let mut hash = with_optime(hash, reply.base);
    hash = with_optime(hash, reply.visible);
    hash = with_optime(hash, reply.commit);
    hash = mixed(hash, u64::from(reply.holds));
    mixed(hash, reply.entries.as_slice().len() as u64)
}

fn with_ask(hash: u64, ask: VoteAsk) -> u64 {
    let hash = mixed(mixed(hash, ask.asked), u64::from(ask.dry));
    with_optime(with_pair(hash, ask.config), ask.last)
}

fn with_beat(hash: u64, beat: &Beat) -> u64 {
    let hash = with_pair(hash, (beat.config.term, beat.config.version));
    let hash = with_optime(with_optime(hash, beat.commit), beat.visible);
    mixed(hash, u64::from(beat.primary))
}

fn with_pair(hash: u64, pair: (u64, u32)) -> u64 {
    mixed(mixed(hash, pair.0), u64::from(pair.1))
}

fn refusal_number(refused: Option<VoteRefusal>) -> u64 {
    match refused {
        None => 0,
        Some(why) => u64::from(why as u8) + 1,
    }
}
