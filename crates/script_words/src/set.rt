// The line that names the sizes of the set.
ghost use Rattle.std.specs.Prelude.{◌≡◌};
ghost use Rattle.std.specs.Option.{option_copied};
ghost use Rattle.script_words.specs.Set.{members_or, most_voters, sizes_at, set_line};

use crate::rule::ScriptRule;
use crate::shape::Shape;
use crate::words::{Left, has_shape, number, optional, word};

/// How many nodes a set may have.
pub const MAX_NODES: u32 = 50;

/// How many members may vote.
const MAX_VOTERS: u32 = 7;

/// The sizes that a `set` line names.
#[derive(Clone, Copy, Debug, PartialEq, Eq)]
pub struct SetLine {
    /// How many nodes the set has.
    pub nodes: u32,
    /// How many of them, the first ones, vote.
    pub voters: u32,
    /// How many, with the voters, are members.
    pub members: u32,
}

/// The sizes that a `set` line names: `set NODES VOTERS MEMBERS`. Without `MEMBERS` only the voters are
/// members. With `NODES` alone all nodes are members, and as many vote as may.
#[tactic(auto, unfolding(crate::specs::Set::set_line))]
pub fn set_line(text: &str) -> Result<SetLine, ScriptRule>
    ensures { result ≡ set_line text.now }
{
    let (first, left) = word(Some(text))?;
    if first != "set" {
        return Err(ScriptRule::NoSetLine);
    }
    if !has_shape(left, Shape::Words { least: 1, most: 3 }) {
        return Err(ScriptRule::WordCount);
    }
    sizes(left)
}

/// `NODES`, then `VOTERS` or nothing, and after it `MEMBERS` or nothing
#[tactic(auto, unfolding(crate::specs::Set::sizes_at))]
fn sizes(left: Left<'_>) -> Result<SetLine, ScriptRule>
    ensures { result ≡ sizes_at (option_copied left.entry) }
{
    let (nodes, left) = number(left, 1, MAX_NODES)?;
    let most = most_voters(nodes);
    let (voters, rest) = optional(left, most, 1, most)?;
    let (members, rest) = optional(rest, members_or(left, nodes, voters), voters, nodes)?;
    match rest {
        None => Ok(SetLine {
            nodes,
            voters,
            members,
        }),
        Some(_) => Err(ScriptRule::WordCount),
    }
}

/// How many members there are if the line doesn't say: all nodes, or only the voters if it names them.
fn members_or(left: Left<'_>, nodes: u32, voters: u32) -> u32
    ensures { result ≡ members_or (option_copied left.entry) nodes voters }
{
    match left {
        None => nodes,
        Some(_) => voters,
    }
}

/// How many of these nodes may vote.
pub fn most_voters(nodes: u32) -> u32
    ensures { result ≡ most_voters nodes }
{
    if nodes < MAX_VOTERS {
        nodes
    } else {
        MAX_VOTERS
    }
}
