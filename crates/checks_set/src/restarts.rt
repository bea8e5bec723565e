// What a node has when it comes back after one of its disks failed.
use crate::running::{Failing, NOTHING, RUN, ended};
use std::alloc::{AllocError, Global};
use std::fmt::Write;
use std::sync::Wait;
use std::test::Fail;
use std::thread::Threads;

/// Whether each `restart` of a script without blocks brings its node up, or is answered that it isn't down,
/// except for one in which a disk fails.
pub fn are_answered(script: &str, put: &str) -> bool {
    script
        .lines()
        .skip(1)
        .zip(put.lines().filter(|line| !line.starts_with(' ')))
        .all(|(command, reply)| !command.starts_with("restart ") || is_of_restart(reply))
}

fn is_of_restart(reply: &str) -> bool {
    reply.contains(": up last ")
        || reply.ends_with(": refused 30 NotDown")
        || reply.ends_with(": refused 29 DiskFailed")
}

/// Whether the node whose disk fails comes back as if it had crashed before the command whose call it was, or
/// after it: with the log that was durable, or with the one that was being stored.
pub fn is_brought_back<R: Threads + Wait + Sync>(
    rt: &R,
    alloc: Global,
    script: &str,
    put: &str,
    failing: Failing<'_>,
) -> Result<bool, Fail> {
    let Some((before, _)) = put.split_once(": refused 29 DiskFailed\n") else {
        return Ok(false);
    };
    let done = before.lines().filter(|line| !line.starts_with(' ')).count();
    let node = failing.disk / 2;
    let stored = cut_short(alloc, script, done.saturating_add(1), 1, node)?;
    let back = log_after(rt, alloc, &stored, failing)?;
    if back == log_after(rt, alloc, &stored, NOTHING)? {
        return Ok(true);
    }
    let durable = cut_short(alloc, script, done, 2, node)?;
    Ok(back == log_after(rt, alloc, &durable, NOTHING)?)
}

/// The first lines of a script, and this many crashes of a node, then its restart and its log.
fn cut_short(
    alloc: Global,
    script: &str,
    lines: usize,
    crashes: u32,
    node: usize,
) -> Result<String, AllocError> {
    let mut text = String::new(alloc);
    for line in script.lines().take(lines) {
        text.push_str(line)?;
        text.push_str("\n")?;
    }
    for _ in 0..crashes {
        write!(text, "crash n{node}\n")?;
    }
    write!(text, "restart n{node}\nlog n{node}\n")?;
    Ok(text)
}

/// The output of a script from the optime on with which its last restart brings a node up.
fn log_after<R: Threads + Wait + Sync>(
    rt: &R,
    alloc: Global,
    script: &str,
    failing: Failing<'_>,
) -> Result<String, Fail> {
    let (_, put) = ended(rt, alloc, RUN, script, failing)?;
    match put.rsplit_once(": up last ") {
        Some((_, back)) => Ok(String::from_str(alloc, back)?),
        None => Err(Fail::new(put)),
    }
}
