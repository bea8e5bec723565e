// What a message does at the node that receives it.
ghost use Rattle.std.specs.Prelude.{◌≡◌, ◌<◌, ◌≤◌, ◌^◌, true, None, length, IfOk};
ghost use Rattle.set_model.specs.Deliver as delivered;
ghost use Rattle.set_model.specs.Taking.{CanTake};
ghost use Rattle.checker_node.specs.Done.{Does, IsEnd};
ghost use Rattle.checker_machine.specs.Hears.{CanHear};
ghost use Rattle.checker_machine.specs.Plain.{is_plain_body};
ghost use Rattle.checker_node.specs.Sound.{HasRoom, IsSound};

use bson_doc::Mem;
use checker_node::{Answer, Node, vote_record};
use repl_msg::{Body, Message};
use set_model::Refusal;

/// A message of a higher term makes the node take that term first. One that asks for a vote has its own rule.
fn brings_term(body: &Body) -> bool
    ensures { result ≡ delivered.brings_term body.now }
{
    match body {
        Body::VoteAsk(_) => false,
        Body::Fetch { .. }
        | Body::FetchReply(_)
        | Body::Report { .. }
        | Body::VoteReply { .. }
        | Body::Heartbeat(_)
        | Body::HeartbeatReply(_)
        | Body::CommonAsk { .. }
        | Body::CommonReply { .. } => true,
    }
}

/// Takes a message; `next` is the number of the next one.
#[tactic(auto, using(crate::proofs::StepLemmas::can_hear, crate::proofs::StepLemmas::deliveries))]
pub fn deliver(
    node: &mut Node,
    next: u64,
    message: &Message,
    failed: &mut Option<u32>,
) -> Mem<Answer>
    requires sound { IsSound node.old }
    requires message { node.old.up ≡ true → CanTake node.old message.now }
    ensures { IfOk result (λ answer.
        Does (delivered.deliver next node.old message.now) failed.old failed.new answer node.new) }
{
    if !node.is_up() {
        return Ok(node.refuses(Refusal::NodeDown));
    }
    if let Some(why) = body_refusal(node, message) {
        return Ok(node.refuses(why));
    }
    take(node, next, message, failed)
}

/// Takes a message, and its term first where that is higher.
fn take(node: &mut Node, next: u64, message: &Message, failed: &mut Option<u32>) -> Mem<Answer>
    requires room { HasRoom node.old }
    requires settled { node.old.doubt ≡ None }
    requires message { CanHear message.now }
    ensures { IfOk result (λ answer.
        Does (delivered.with_term node.old message.now
        (delivered.told next message.now.from message.now.term message.now.body))
        failed.old failed.new answer node.new) }
{
    if brings_term(&message.body) && node.term() < message.term {
        return take_higher(node, next, message, failed);
    }
    told(node, next, message, failed)
}

/// Stores the message's term, enters it, and takes the message.
fn take_higher(
    node: &mut Node,
    next: u64,
    message: &Message,
    failed: &mut Option<u32>,
) -> Mem<Answer>
    requires room { HasRoom node.old }
    requires settled { node.old.doubt ≡ None }
    requires message { CanHear message.now }
    ensures { IfOk result (λ answer.
        Does (delivered.take_term node.old message.now.term
        (delivered.told next message.now.from message.now.term message.now.body))
        failed.old failed.new answer node.new) }
{
    if !node.store_other(vote_record(message.term, None), failed)? {
        return Ok(node.failed());
    }
    node.enter_term(message.term, None);
    told(node, next, message, failed)
}

/// Why a message isn't taken at all.
fn body_refusal(node: &Node, message: &Message) -> Option<Refusal>
    ensures { result ≡ delivered.body_refusal node.now message.now.term message.now.body }
{
    match &message.body {
        Body::CommonAsk { commit } => node.common_refusal(message.term, *commit),
        _ => None,
    }
}

/// Does what the body asks for.
fn told(node: &mut Node, next: u64, message: &Message, failed: &mut Option<u32>) -> Mem<Answer>
    requires settled { node.old.doubt ≡ None }
    requires members { length node.old.config.members ≤ 50 }
    requires rollback { node.old.rollback < 2 ^ 62 }
    requires message { CanHear message.now }
    ensures { IfOk result (λ answer.
        Does (delivered.told next message.now.from message.now.term message.now.body node.old)
        failed.old failed.new answer node.new) }
{
    let (from, term) = (message.from, message.term);
    match &message.body {
        Body::Fetch { base } => node.fetch_told(next, from, *base),
        Body::VoteAsk(ask) => node.vote_asked(next, from, *ask, failed),
        Body::Heartbeat(beat) => node.beat_told(next, from, term, beat, failed),
        Body::HeartbeatReply(beat) => node.beat_answered(from, term, beat, failed),
        Body::CommonAsk { commit } => node.common_asked(next, from, *commit),
        Body::CommonReply {
            after,
            optimes,
            visible,
        } => node.common_told(term, *after, optimes, *visible, failed),
        _ => told_plainly(node, message),
    }
}

/// Does what a body asks for that stores and sends nothing.
fn told_plainly(node: &mut Node, message: &Message) -> Mem<Answer>
    requires members { length node.old.config.members ≤ 50 }
    requires message { CanHear message.now }
    requires plain { is_plain_body message.now.body ≡ true }
    ensures { IfOk result (λ answer. IsEnd
        (delivered.told 0 message.now.from message.now.term message.now.body node.old) answer node.new) }
{
    let (from, term) = (message.from, message.term);
    let reply = match &message.body {
        Body::FetchReply(reply) => node.entries_told(from, reply)?,
        Body::Report { config, durable } => node.report_told(from, term, *config, *durable)?,
        Body::VoteReply {
            asked,
            dry,
            refused,
        } => {
            if *dry {
                node.dry_told(from, *asked, *refused)?
            } else {
                node.vote_told(from, *asked, *refused)?
            }
        }
        _ => unreachable!(),
    };
    Ok(node.replies(reply))
}
