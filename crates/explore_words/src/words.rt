// The words that a question has in its own way.
ghost use Rattle.std.specs.Prelude.{◌≡◌};
ghost use Rattle.std.specs.Option.{option_copied};
ghost use Rattle.script_words.specs.Gives.{Reads};
ghost use Rattle.explore_words.specs.Commands.{acks_last, any_node_at, any_second_at, asked, is_of, is_star, names_one, node_or_first, rest_after, route_at, second_node_at, verb_at, wanted_shape, wanted_verb_at};

use crate::question::Route;
use script_words::{
    Left, NodeVerb, Read, ScriptRule, Shape, Verb, has_shape, node, other_node, word,
};

/// What a first word asks for. No disk fails in a question.
fn asked(word: &str) -> Option<Verb>
    ensures { result ≡ asked word.now }
{
    match word {
        "diskfail" => None,
        _ => Verb::named(word),
    }
}

/// The first word of a command that has as many words as it asks for.
#[tactic(auto, unfolding(crate::specs::Commands::verb_at))]
pub fn verb(text: &str) -> Read<'_, Verb>
    ensures { Reads (λ x. (x.0, option_copied x.1)) result (verb_at text.now) }
{
    let (first, left) = word(Some(text))?;
    let Some(verb) = asked(first) else {
        return Err(ScriptRule::UnknownCommand);
    };
    if has_shape(left, verb.shape()) {
        Ok((verb, left))
    } else {
        Err(ScriptRule::WordCount)
    }
}

/// The first word of a want's command that has as many words as it asks for.
#[tactic(auto, unfolding(crate::specs::Commands::wanted_verb_at))]
pub fn wanted_verb(text: &str) -> Read<'_, Verb>
    ensures { Reads (λ x. (x.0, option_copied x.1)) result (wanted_verb_at text.now) }
{
    let (first, left) = word(Some(text))?;
    let Some(verb) = asked(first) else {
        return Err(ScriptRule::UnknownCommand);
    };
    if has_shape(left, wanted_shape(verb, left)) {
        Ok((verb, left))
    } else {
        Err(ScriptRule::WordCount)
    }
}

fn wanted_shape(verb: Verb, left: Left<'_>) -> Shape
    ensures { result ≡ wanted_shape verb (option_copied left.entry) }
{
    if acks_last(verb, left) {
        Shape::Words {
            least: 5,
            most: u32::MAX,
        }
    } else {
        verb.shape()
    }
}

/// Whether it is `ack NODE of ..`.
fn acks_last(verb: Verb, left: Left<'_>) -> bool
    ensures { result ≡ acks_last verb (option_copied left.entry) }
{
    match verb {
        Verb::Node(NodeVerb::Ack) => is_of(rest_after(left)),
        _ => false,
    }
}

/// What is left after the next word.
pub fn rest_after(left: Left<'_>) -> Left<'_>
    ensures { option_copied result ≡ rest_after (option_copied left.entry) }
{
    match word(left) {
        Ok((_, rest)) => rest,
        Err(_) => None,
    }
}

/// Whether the next word is `of`.
pub fn is_of(left: Left<'_>) -> bool
    ensures { result ≡ is_of (option_copied left.entry) }
{
    match word(left) {
        Ok((next, _)) => next == "of",
        Err(_) => false,
    }
}

/// Whether a star is left, and nothing after it.
pub fn is_star(left: Left<'_>) -> bool
    ensures { result ≡ is_star (option_copied left.entry) }
{
    match left {
        Some(text) => text == "*",
        None => false,
    }
}

/// Whether it is the delivery of a message that the line names.
pub fn names_one(verb: Verb, left: Left<'_>) -> bool
    ensures { result ≡ names_one verb (option_copied left.entry) }
{
    match verb {
        Verb::Deliver => has_shape(left, Shape::Words { least: 1, most: 1 }),
        Verb::Node(_) => false,
    }
}

/// A node of a set of so many, or none where a star stands for any.
#[tactic(auto, unfolding(crate::specs::Commands::any_node_at))]
pub fn any_node(left: Left<'_>, nodes: u32) -> Read<'_, Option<u32>>
    ensures { Reads (λ x. (x.0, option_copied x.1)) result (any_node_at nodes (option_copied left.entry)) }
{
    let (first, rest) = word(left)?;
    if first == "*" {
        return Ok((None, rest));
    }
    let (node, rest) = node(left, nodes)?;
    Ok((Some(node), rest))
}

/// Another node than the first, where that isn't any.
fn second_node(left: Left<'_>, nodes: u32, first: Option<u32>) -> Read<'_, u32>
    ensures { Reads (λ x. (x.0, option_copied x.1)) result
        (second_node_at nodes first (option_copied left.entry)) }
{
    match first {
        Some(first) => other_node(left, nodes, first),
        None => node(left, nodes),
    }
}

/// Such a node, or none where a star stands for any.
#[tactic(auto, unfolding(crate::specs::Commands::any_second_at))]
fn any_second(left: Left<'_>, nodes: u32, first: Option<u32>) -> Read<'_, Option<u32>>
    ensures { Reads (λ x. (x.0, option_copied x.1)) result
        (any_second_at nodes first (option_copied left.entry)) }
{
    let (second, rest) = word(left)?;
    if second == "*" {
        return Ok((None, rest));
    }
    let (node, rest) = second_node(left, nodes, first)?;
    Ok((Some(node), rest))
}

/// `FROM TO`
#[tactic(auto, unfolding(crate::specs::Commands::route_at))]
pub fn route(left: Left<'_>, nodes: u32) -> Result<Route, ScriptRule>
    ensures { result ≡ route_at nodes (option_copied left.entry) }
{
    let (from, left) = any_node(left, nodes)?;
    let (to, left) = any_second(left, nodes, from)?;
    match left {
        None => Ok(Route { from, to }),
        Some(_) => Err(ScriptRule::WordCount),
    }
}

/// The node that stands for any.
pub fn node_or_first(node: Option<u32>) -> u32
    ensures { result ≡ node_or_first node }
{
    match node {
        Some(node) => node,
        None => 0,
    }
}
