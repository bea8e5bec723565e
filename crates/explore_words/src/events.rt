// The events that wants look for.
ghost use Rattle.std.specs.Prelude.{◌≡◌};
ghost use Rattle.std.specs.Option.{option_copied};
ghost use Rattle.script_words.specs.Gives.{Gives};
ghost use Rattle.explore_words.specs.Commands.{command_event, delivered_route, event_at};
ghost use Rattle.explore_words.specs.Wants.{is_delivery, may_have, may_send, sends};

use crate::question::{Route, WantedEvent};
use crate::texts::{is_idle, names_message};
use crate::words::{any_node, is_star, node_or_first, route};
use script_words::{Left, LineError, NodeVerb, ScriptRule, Verb, of_node};
use set_model::Command;
use std::alloc::Global;

/// The event that a command and its words name.
pub fn event(
    alloc: Global,
    nodes: u32,
    verb: Verb,
    left: Left<'_>,
) -> Result<WantedEvent, LineError>
    ensures { Gives (λ event. event) result (event_at nodes verb (option_copied left.entry)) }
{
    match verb {
        Verb::Deliver => Ok(WantedEvent::Delivery(delivered_route(left, nodes)?)),
        Verb::Node(NodeVerb::Heartbeat) => Ok(WantedEvent::Heartbeat(route(left, nodes)?)),
        Verb::Node(NodeVerb::Report) => Ok(WantedEvent::Report(route(left, nodes)?)),
        Verb::Node(NodeVerb::Common) => Ok(WantedEvent::Common(route(left, nodes)?)),
        Verb::Node(verb) => command_event(alloc, nodes, verb, left),
    }
}

/// A star for any delivery, or `FROM TO`.
fn delivered_route(left: Left<'_>, nodes: u32) -> Result<Route, ScriptRule>
    ensures { result ≡ delivered_route nodes (option_copied left.entry) }
{
    if is_star(left) {
        return Ok(Route {
            from: None,
            to: None,
        });
    }
    route(left, nodes)
}

/// `NODE`, or a star, and the words of its command.
#[tactic(auto, unfolding(crate::specs::Commands::command_event))]
fn command_event(
    alloc: Global,
    nodes: u32,
    verb: NodeVerb,
    left: Left<'_>,
) -> Result<WantedEvent, LineError>
    ensures { Gives (λ event. event) result (command_event nodes verb (option_copied left.entry)) }
{
    let (node, left) = any_node(left, nodes)?;
    let command = of_node(alloc, nodes, verb, node_or_first(node), left)?;
    Ok(WantedEvent::Command(node, command))
}

impl WantedEvent {
    /// Whether the reply to such an event may name a message.
    pub(crate) fn may_send(&self) -> bool
        ensures { result ≡ may_send self.now }
    {
        match self {
            WantedEvent::Command(_, command) => sends(command),
            _ => true,
        }
    }

    fn is_delivery(&self) -> bool
        ensures { result ≡ is_delivery self.now }
    {
        match self {
            WantedEvent::Delivery(_) => true,
            _ => false,
        }
    }

    /// Whether a reply to such an event may be wanted to begin so. It names no message, and isn't that of a
    /// delivery that changes nothing.
    pub(crate) fn may_have(&self, text: &str) -> bool
        ensures { result ≡ may_have self.now text.now }
    {
        !(self.may_send() && names_message(text)) && !(self.is_delivery() && is_idle(text))
    }
}

fn sends(command: &Command) -> bool
    ensures { result ≡ sends command.now }
{
    match command {
        Command::Campaign { .. } | Command::DryRun { .. } | Command::Fetch { .. } => true,
        _ => false,
    }
}
