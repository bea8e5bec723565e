ghost use Rattle.std.specs.Prelude.{◌≡◌, Some, min};
ghost use Rattle.std.specs.Option.{option_map, option_map_or};
ghost use Rattle.std.specs.Result.{result_ok};
ghost use Rattle.member_config.specs.Numbers.{lowest};
ghost use Rattle.repl_msg.specs.Sources as words;
ghost use Rattle.sync_source.specs.Known.{first_of_member, heard_by, heard_of};

use member_config::Config;
use rs_optime::OpTime;
use thiserror::Error;

/// What was last heard of a member: its last visible optime, and whether it is primary.
#[derive(Clone, Copy, Debug, PartialEq, Eq)]
pub struct Known {
    /// The number of the member.
    pub member: u32,
    pub last: OpTime,
    pub primary: bool,
}

/// No member from which the node may fetch is known to have a later last optime than the node.
#[derive(Clone, Copy, Debug, PartialEq, Eq, Error)]
#[error("no member goes further")]
pub struct NoSource;

/// The member that a node fetches from: the lowest number among the other members whose last optime is later
/// than `last`. Where the configuration doesn't allow chaining, only a primary counts. Where `known` names a
/// member twice, the first mention counts. `NoSource` where there is no such member.
pub fn choose(config: &Config, own: u32, last: OpTime, known: &[Known]) -> Result<u32, NoSource>
    ensures { result_ok result ≡ lowest (words.sources_of config.now own last (heard_of known.now)) }
{
    let members = config.members.as_slice();
    let sources = members
        .iter()
        .map(|m| m.number)
        .filter(|n| *n != own && goes_further(config, last, known, *n));
    sources
        .fold(None, |lowest, n| lower(lowest, n))
        .ok_or(NoSource)
}

/// The lower of a number and another one, if there is another.
pub(crate) fn lower(lowest: Option<u32>, number: u32) -> Option<u32>
    ensures { result ≡ Some (option_map_or (min number) lowest number) }
{
    match lowest {
        None => Some(number),
        Some(other) => Some(number.min(other)),
    }
}

fn goes_further(config: &Config, last: OpTime, known: &[Known], member: u32) -> bool
    ensures { result ≡ words.goes_further config.now last (heard_of known.now member) }
{
    is_further(config, last, known_of(known, member))
}

/// Whether a member's log goes further, by what was heard of it.
pub(crate) fn is_further(config: &Config, last: OpTime, heard: Option<Known>) -> bool
    ensures { result ≡ words.goes_further config.now last (option_map heard_by heard) }
{
    match heard {
        None => false,
        Some(heard) => last < heard.last && (config.chaining || heard.primary),
    }
}

fn known_of(known: &[Known], member: u32) -> Option<Known>
    ensures { result ≡ first_of_member known.now member }
{
    known.iter().find(|k| k.member == member).copied()
}
