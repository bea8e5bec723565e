// How the other nodes get a log, and report it.
ghost use Rattle.std.specs.Prelude.{◌≡◌, ◌<◌};
ghost use Rattle.linear_read.specs.Going.{Went};
ghost use Rattle.linear_read.specs.Points.{flushes, others_told, round, rounds, told};

use crate::asking::{ask, carry, deliver};
use crate::shown::{is_flushed, message_replied, took_some};
use rs_optime::OpTime;
use set_model::Command;
use set_world::{StepError, Stepper};
use std::sync::Wait;
use std::thread::Threads;

/// Each node does at most this many rounds.
const MOST_ROUNDS: u32 = 50;

/// A node flushes at most this many times in a round.
const FLUSHES_OF_ROUND: u32 = 3;

/// A node flushes its log, at most this many times, while there is something to flush.
pub(crate) fn flush<R: Threads + Wait + Sync, S: Stepper>(
    rt: &R,
    set: &mut S,
    node: u32,
    most: u32,
) -> Result<(), StepError>
    requires node { node < (S.sizes set.old).nodes }
    ensures { Went S.is_alone S.sizes S.known S.own S.stays S.is_whole set.old set.new
        (flushes node most) result }
{
    for _ in 0..most {
        if !is_flushed(&ask(rt, set, Command::Flush { node })?) {
            return Ok(());
        }
    }
    Ok(())
}

/// Each other node gets the log up to an optime, as far as it can, and reports it.
pub(crate) fn tell_others<R: Threads + Wait + Sync, S: Stepper>(
    rt: &R,
    set: &mut S,
    node: u32,
    nodes: u32,
    at: OpTime,
) -> Result<(), StepError>
    requires nodes { nodes ≡ (S.sizes set.old).nodes }
    requires node { node < nodes }
    ensures { Went S.is_alone S.sizes S.known S.own S.stays S.is_whole set.old set.new
        (others_told node at 0 nodes) result }
{
    for other in 0..nodes {
        tell(rt, set, node, other, at)?;
    }
    Ok(())
}

/// Another node does its rounds, and reports how far it is durable.
fn tell<R: Threads + Wait + Sync, S: Stepper>(
    rt: &R,
    set: &mut S,
    node: u32,
    other: u32,
    at: OpTime,
) -> Result<(), StepError>
    requires node { node < (S.sizes set.old).nodes }
    requires other { other < (S.sizes set.old).nodes }
    ensures { Went S.is_alone S.sizes S.known S.own S.stays S.is_whole set.old set.new
        (told node other at) result }
{
    if other == node {
        return Ok(());
    }
    repeat_rounds(rt, set, node, other, at)?;
    let report = Command::Report {
        node: other,
        to: node,
    };
    carry(rt, set, report)?;
    Ok(())
}

/// Does rounds while another one is worthwhile.
fn repeat_rounds<R: Threads + Wait + Sync, S: Stepper>(
    rt: &R,
    set: &mut S,
    node: u32,
    other: u32,
    at: OpTime,
) -> Result<(), StepError>
    requires node { node < (S.sizes set.old).nodes }
    requires other { other < (S.sizes set.old).nodes }
    ensures { Went S.is_alone S.sizes S.known S.own S.stays S.is_whole set.old set.new
        (rounds node other at 50) result }
{
    for _ in 0..MOST_ROUNDS {
        if !has_round(rt, set, node, other, at)? {
            return Ok(());
        }
    }
    Ok(())
}

/// One round: the other node hears of this one, fetches from its source, and flushes. The result is whether
/// another one is worthwhile.
fn has_round<R: Threads + Wait + Sync, S: Stepper>(
    rt: &R,
    set: &mut S,
    node: u32,
    other: u32,
    at: OpTime,
) -> Result<bool, StepError>
    requires node { node < (S.sizes set.old).nodes }
    requires other { other < (S.sizes set.old).nodes }
    ensures { Went S.is_alone S.sizes S.known S.own S.stays S.is_whole set.old set.new
        (round node other at) result }
{
    let is_heard = message_replied(&carry(
        rt,
        set,
        Command::Heartbeat { node, to: other },
    )?).is_some();
    let found = message_replied(&carry(rt, set, Command::Fetch { node: other })?);
    let took = took_some(at, &deliver(rt, set, found)?);
    flush(rt, set, other, FLUSHES_OF_ROUND)?;
    Ok(is_heard && took)
}
