//! A set of one node as a library: it is elected, and becomes primary.
#![tactic(auto)]

ghost use Rattle.std.specs.Prelude.{◌≡◌, true};
ghost use Rattle.set_model.specs.Limits.{is_for};

use anyhow::{Result, bail};
use rs_disk::MemDisk;
use set_model::{Command, Reply};
use set_world::{World, empty_disks};
use std::alloc::Global;
use std::thread::Threads;
use transcript::write_reply;

fn main(rt: HostRuntime) -> Result<()> {
    let alloc = rt.alloc();
    let Ok(mut world) = World::open(alloc, 1, 1, 1, empty_disks(alloc)?) else {
        bail!("the set can't be opened");
    };
    let elected = tell(&rt, alloc, &mut world, 1, Command::Campaign { node: 0 })?;
    print!(rt; "{elected}")?;
    let drained = tell(&rt, alloc, &mut world, 2, Command::Drain { node: 0 })?;
    print!(rt; "{drained}")?;
    Ok(())
}

/// Does one more event in the set, and returns the text of its reply.
fn tell<R: Threads + Sync>(
    rt: &R,
    alloc: Global,
    world: &mut World<MemDisk>,
    line: u32,
    command: Command,
) -> Result<String>
    requires { is_for world.old.sizes.nodes command ≡ true }
    ensures { world.new.sizes ≡ world.old.sizes }
{
    let reply = world.take(rt, line, command)?;
    text_of(alloc, line, &reply)
}

/// The text of a reply to a line.
fn text_of(alloc: Global, line: u32, reply: &Reply) -> Result<String> {
    let mut text = String::new(alloc);
    write_reply(line, reply, &mut text)?;
    Ok(text)
}
