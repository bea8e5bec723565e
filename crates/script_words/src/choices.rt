// Words that have one of several forms.
ghost use Rattle.std.specs.Prelude.{◌≡◌};
ghost use Rattle.std.specs.Option.{option_copied};
ghost use Rattle.script_words.specs.declared.rule.ScriptRule.TheVariants.{BadWord};
ghost use Rattle.script_words.specs.Gives.{Reads};
ghost use Rattle.script_words.specs.Words.{number_of, cut_at_slash, optime_of, writer_target, optime_target, target_of, concern_of, level_of, disk_of, target_at, concern_at, level_at, disk_at};

use crate::rule::ScriptRule;
use crate::words::{Left, Read, long_of, number_of, word};
use rs_optime::OpTime;
use set_model::{AckConcern, DiskName, ReadLevel, Target};

/// What comes before the first slash, and what follows it.
fn cut_at_slash(text: &str) -> Result<(&str, &str), ScriptRule>
    ensures { Reads (λ x. (x.0.now, x.1.now)) result (cut_at_slash text.now) }
{
    match text.split_once('/') {
        Some((front, rest)) => Ok((front, rest)),
        None => Err(ScriptRule::BadWord),
    }
}

/// `TERM/SECONDS/INCREMENT`
#[tactic(auto, unfolding(crate::specs::Words::optime_of))]
fn optime_of(word: &str) -> Result<OpTime, ScriptRule>
    ensures { result ≡ optime_of word.now }
{
    let (term, time) = cut_at_slash(word)?;
    let (seconds, increment) = cut_at_slash(time)?;
    let term = long_of(term, ScriptRule::BadWord, ScriptRule::BadWord)?;
    let seconds = part_of(seconds)?;
    let increment = part_of(increment)?;
    let ts = u64::from(seconds) * (1 << 32) + u64::from(increment);
    Ok(OpTime { term, ts })
}

/// Any number of 32 bits.
fn part_of(word: &str) -> Result<u32, ScriptRule>
    ensures { result ≡ number_of BadWord BadWord 0 4294967295 word.now }
{
    number_of(
        word,
        0,
        4_294_967_295,
        ScriptRule::BadWord,
        ScriptRule::BadWord,
    )
}

/// A writer, or an optime.
fn target_of(word: &str) -> Result<Target, ScriptRule>
    ensures { result ≡ target_of word.now }
{
    match word.strip_prefix('w') {
        Some(digits) => writer_target(digits),
        None => optime_target(word),
    }
}

#[tactic(auto, unfolding(crate::specs::Words::writer_target))]
fn writer_target(digits: &str) -> Result<Target, ScriptRule>
    ensures { result ≡ writer_target digits.now }
{
    let writer = number_of(digits, 0, 999, ScriptRule::BadWord, ScriptRule::BadWord)?;
    Ok(Target::Writer(writer))
}

#[tactic(auto, unfolding(crate::specs::Words::optime_target))]
fn optime_target(word: &str) -> Result<Target, ScriptRule>
    ensures { result ≡ optime_target word.now }
{
    Ok(Target::At(optime_of(word)?))
}

/// `majority`, or how many.
#[tactic(auto, unfolding(crate::specs::Words::concern_of))]
fn concern_of(word: &str) -> Result<AckConcern, ScriptRule>
    ensures { result ≡ concern_of word.now }
{
    if word == "majority" {
        return Ok(AckConcern::Majority);
    }
    let count = number_of(word, 1, 50, ScriptRule::BadWord, ScriptRule::BadNumber)?;
    Ok(AckConcern::Count(count))
}

fn level_of(word: &str) -> Result<ReadLevel, ScriptRule>
    ensures { result ≡ level_of word.now }
{
    match word {
        "local" => Ok(ReadLevel::Local),
        "majority" => Ok(ReadLevel::Majority),
        _ => Err(ScriptRule::BadWord),
    }
}

fn disk_of(word: &str) -> Result<DiskName, ScriptRule>
    ensures { result ≡ disk_of word.now }
{
    match word {
        "journal" => Ok(DiskName::Journal),
        "checkpoint" => Ok(DiskName::Checkpoint),
        _ => Err(ScriptRule::BadWord),
    }
}

/// The write whose acknowledgement is asked for.
#[tactic(auto, unfolding(crate::specs::Words::target_at))]
pub fn target(left: Left<'_>) -> Read<'_, Target>
    ensures { Reads (λ x. (x.0, option_copied x.1)) result (target_at (option_copied left.entry)) }
{
    let (word, rest) = word(left)?;
    Ok((target_of(word)?, rest))
}

/// How many members the write has to be durable on.
#[tactic(auto, unfolding(crate::specs::Words::concern_at))]
pub fn concern(left: Left<'_>) -> Read<'_, AckConcern>
    ensures { Reads (λ x. (x.0, option_copied x.1)) result (concern_at (option_copied left.entry)) }
{
    let (word, rest) = word(left)?;
    Ok((concern_of(word)?, rest))
}

/// What a read shows.
#[tactic(auto, unfolding(crate::specs::Words::level_at))]
pub fn level(left: Left<'_>) -> Read<'_, ReadLevel>
    ensures { Reads (λ x. (x.0, option_copied x.1)) result (level_at (option_copied left.entry)) }
{
    let (word, rest) = word(left)?;
    Ok((level_of(word)?, rest))
}

/// One of a node's two disks.
#[tactic(auto, unfolding(crate::specs::Words::disk_at))]
pub fn disk(left: Left<'_>) -> Read<'_, DiskName>
    ensures { Reads (λ x. (x.0, option_copied x.1)) result (disk_at (option_copied left.entry)) }
{
    let (word, rest) = word(left)?;
    Ok((disk_of(word)?, rest))
}
