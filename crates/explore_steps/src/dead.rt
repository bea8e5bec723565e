// Messages that are dead.
ghost use Rattle.std.specs.Prelude.{◌≡◌, ◌==◌, ◌&&◌, ◌||◌, nat_lt, not};
ghost use Rattle.set_model.specs.Roles.{is_candidate};
ghost use Rattle.explore_laws.specs.Dead.{is_dead};

use checker_node::Node;
use repl_msg::{Body, Message};
use set_model::Role;

/// Whether a message is dead at its receiver.
pub fn is_dead(node: &Node, message: &Message) -> bool
    ensures { result ≡ is_dead node.now message.now }
{
    let (own, term) = (node.known_term(), message.term);
    match &message.body {
        Body::Heartbeat(_) | Body::HeartbeatReply(_) => term < own,
        Body::Report { .. } => term < own || (term == own && node.role() == Role::Secondary),
        Body::CommonReply { visible, .. } => term < own || (term == own && visible.term != own),
        Body::VoteReply {
            asked,
            dry,
            refused,
        } => term <= own && is_dead_vote(own, node.role(), *asked, *dry, refused.is_some()),
        Body::FetchReply(reply) => term <= own && !reply.holds,
        Body::VoteAsk(_) | Body::Fetch { .. } | Body::CommonAsk { .. } => false,
    }
}

// Whether what a vote says is dead, where it was sent in a term up to the receiver's own.
fn is_dead_vote(own: u64, role: Role, asked: u64, dry: bool, is_refused: bool) -> bool
    ensures { result ≡ (nat_lt asked own
        || (asked == own && (not dry && (is_refused || not (is_candidate role))))) }
{
    asked < own || (asked == own && !dry && (is_refused || role != Role::Candidate))
}
