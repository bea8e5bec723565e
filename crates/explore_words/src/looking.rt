// What a want looks at.
ghost use Rattle.std.specs.Prelude.{◌≡◌, codes};
ghost use Rattle.std.specs.Option.{option_copied};
ghost use Rattle.script_words.specs.Gives.{Gives, Reads};
ghost use Rattle.script_words.specs.Words.{ended};
ghost use Rattle.explore_words.specs.Commands.{ack_last_sight, ack_sight, before_last_word, dump_sight, read_sight, sight_at, sight_verb};
ghost use Rattle.explore_words.specs.Texts.{cut_at_last};

use crate::question::Sight;
use crate::texts::cut_at_last;
use crate::words::{is_of, rest_after};
use bson_doc::Text;
use script_words::{
    Left, LineError, NodeVerb, ScriptRule, Verb, collection, concern, last_value, level, target,
    text,
};
use std::alloc::Global;

/// What a node may be looked at for.
#[derive(Clone, Copy, Debug, PartialEq, Eq)]
pub enum SightVerb {
    Read,
    Dump,
    Log,
    State,
    Rolled,
    Ack,
}

impl SightVerb {
    /// What a command looks at, where it is one that does.
    pub fn of(verb: Verb) -> Option<Self>
        ensures { result ≡ sight_verb verb }
    {
        match verb {
            Verb::Node(NodeVerb::Read) => Some(SightVerb::Read),
            Verb::Node(NodeVerb::Dump) => Some(SightVerb::Dump),
            Verb::Node(NodeVerb::Log) => Some(SightVerb::Log),
            Verb::Node(NodeVerb::State) => Some(SightVerb::State),
            Verb::Node(NodeVerb::Rolled) => Some(SightVerb::Rolled),
            Verb::Node(NodeVerb::Ack) => Some(SightVerb::Ack),
            _ => None,
        }
    }
}

/// What is looked at, from the words after the node.
pub fn sight(alloc: Global, verb: SightVerb, left: Left<'_>) -> Result<Sight, LineError>
    ensures { Gives (λ sight. sight) result (sight_at verb (option_copied left.entry)) }
{
    match verb {
        SightVerb::Read => read(alloc, left),
        SightVerb::Dump => Ok(dump(left)?),
        SightVerb::Log => Ok(ended(left, Sight::Log)?),
        SightVerb::State => Ok(ended(left, Sight::State)?),
        SightVerb::Rolled => Ok(ended(left, Sight::Rolled)?),
        SightVerb::Ack => {
            if is_of(left) {
                ack_last(alloc, rest_after(left))
            } else {
                Ok(ack(left)?)
            }
        }
    }
}

fn ended(left: Left<'_>, sight: Sight) -> Result<Sight, ScriptRule>
    ensures { result ≡ ended (option_copied left.entry) sight }
{
    match left {
        None => Ok(sight),
        Some(_) => Err(ScriptRule::WordCount),
    }
}

/// `LEVEL COLLECTION ID`
#[tactic(auto, unfolding(crate::specs::Commands::read_sight))]
fn read(alloc: Global, left: Left<'_>) -> Result<Sight, LineError>
    ensures { Gives (λ sight. sight) result (read_sight (option_copied left.entry)) }
{
    let (level, left) = level(left)?;
    let (collection, left) = collection(left)?;
    let id = last_value(alloc, text(left)?)?;
    Ok(Sight::Read {
        level,
        collection: Text::from_str(alloc, collection)?,
        id,
    })
}

/// `LEVEL`
#[tactic(auto, unfolding(crate::specs::Commands::dump_sight))]
fn dump(left: Left<'_>) -> Result<Sight, ScriptRule>
    ensures { result ≡ dump_sight (option_copied left.entry) }
{
    let (level, left) = level(left)?;
    ended(left, Sight::Dump(level))
}

/// `TARGET CONCERN`
#[tactic(auto, unfolding(crate::specs::Commands::ack_sight))]
fn ack(left: Left<'_>) -> Result<Sight, ScriptRule>
    ensures { result ≡ ack_sight (option_copied left.entry) }
{
    let (target, left) = target(left)?;
    let (concern, left) = concern(left)?;
    ended(left, Sight::Ack { target, concern })
}

/// `COLLECTION ID CONCERN`; the concern is the last word.
#[tactic(auto, unfolding(crate::specs::Commands::ack_last_sight))]
fn ack_last(alloc: Global, left: Left<'_>) -> Result<Sight, LineError>
    ensures { Gives (λ sight. sight) result (ack_last_sight (option_copied left.entry)) }
{
    let (collection, left) = collection(left)?;
    let (id, last) = before_last_word(text(left)?)?;
    let id = last_value(alloc, id)?;
    let (concern, _) = concern(Some(last))?;
    Ok(Sight::AckLast {
        collection: Text::from_str(alloc, collection)?,
        id,
        concern,
    })
}

/// What stands before the last space, and what follows it.
fn before_last_word(text: &str) -> Result<(&str, &str), ScriptRule>
    ensures { Reads (λ x. (x.0.now, x.1.now)) result (before_last_word (cut_at_last (codes " ") text.now)) }
{
    match cut_at_last(text, " ") {
        Some(parts) => Ok(parts),
        None => Err(ScriptRule::WordCount),
    }
}
