// The text of a command.
ghost use Rattle.std.specs.Prelude.{◌≡◌, ◌++◌, true, OnOk, string_bytes};
ghost use Rattle.run_checker.specs.Commands.{command_text, is_of_documents, is_of_words, is_of_write};

use crate::words::{
    write_ack, write_change, write_disk_fail, write_id, write_leveled, write_named, write_op,
    write_reconfig, write_stored, write_two,
};
use bson_doc::Mem;
use set_model::Command;
use transcript::write_number;

/// Appends a command in the words of a script. If memory runs out, a part may have been appended. Those that
/// name a node and nothing else are here.
pub fn write_command(command: &Command, out: &mut String) -> Mem<()>
    ensures { OnOk result (string_bytes out.new ≡ string_bytes out.old ++ command_text command.now) }
{
    match command {
        Command::Campaign { node } => write_named("campaign n", *node, out),
        Command::Drain { node } => write_named("drain n", *node, out),
        Command::Log { node } => write_named("log n", *node, out),
        Command::State { node } => write_named("state n", *node, out),
        Command::Rolled { node } => write_named("rolled n", *node, out),
        Command::DryRun { node } => write_named("dryrun n", *node, out),
        Command::StepDown { node } => write_named("stepdown n", *node, out),
        Command::Fetch { node } => write_named("fetch n", *node, out),
        Command::Flush { node } => write_named("flush n", *node, out),
        Command::Checkpoint { node } => write_named("checkpoint n", *node, out),
        Command::Restart { node } => write_named("restart n", *node, out),
        Command::Note { node } => write_named("note n", *node, out),
        Command::Insert { .. }
        | Command::Replace { .. }
        | Command::Update { .. }
        | Command::Delete { .. } => write_of_write(command, out),
        Command::Retry { .. }
        | Command::Begin { .. }
        | Command::Commit { .. }
        | Command::Abort { .. }
        | Command::Ack { .. }
        | Command::Read { .. }
        | Command::Dump { .. } => write_of_documents(command, out),
        _ => write_of_words(command, out),
    }
}

/// Appends a write that is done in one step.
fn write_of_write(command: &Command, out: &mut String) -> Mem<()>
    requires { is_of_write command.now ≡ true }
    ensures { OnOk result (string_bytes out.new ≡ string_bytes out.old ++ command_text command.now) }
{
    match command {
        Command::Insert {
            node,
            collection,
            document,
        } => {
            write_named("insert n", *node, out)?;
            write_stored(collection, document, out)
        }
        Command::Replace {
            node,
            collection,
            id,
            document,
        } => {
            write_named("replace n", *node, out)?;
            write_change(collection, id, document, out)
        }
        Command::Update {
            node,
            collection,
            id,
            operators,
        } => {
            write_named("update n", *node, out)?;
            write_change(collection, id, operators, out)
        }
        Command::Delete {
            node,
            collection,
            id,
        } => {
            write_named("delete n", *node, out)?;
            write_id(collection, id, out)
        }
        _ => unreachable!(),
    }
}

/// Appends a command of a writer, one that waits for a write, or a read.
fn write_of_documents(command: &Command, out: &mut String) -> Mem<()>
    requires { is_of_documents command.now ≡ true }
    ensures { OnOk result (string_bytes out.new ≡ string_bytes out.old ++ command_text command.now) }
{
    match command {
        Command::Retry { node, session, op } => {
            write_two("retry n", *node, " ", session.id, out)?;
            out.push_str(" ")?;
            write_number(session.number.into(), out)?;
            write_op(op, out)
        }
        Command::Begin { node, writer, op } => {
            write_two("begin n", *node, " w", *writer, out)?;
            write_op(op, out)
        }
        Command::Commit { node, writer } => write_two("commit n", *node, " w", *writer, out),
        Command::Abort { node, writer } => write_two("abort n", *node, " w", *writer, out),
        Command::Ack {
            node,
            target,
            concern,
        } => write_ack(*node, *target, *concern, out),
        Command::Read {
            node,
            level,
            collection,
            id,
        } => {
            write_leveled("read n", *node, *level, out)?;
            write_id(collection, id, out)
        }
        Command::Dump { node, level } => write_leveled("dump n", *node, *level, out),
        _ => unreachable!(),
    }
}

/// Appends a command that has other words after the node.
fn write_of_words(command: &Command, out: &mut String) -> Mem<()>
    requires { is_of_words command.now ≡ true }
    ensures { OnOk result (string_bytes out.new ≡ string_bytes out.old ++ command_text command.now) }
{
    match command {
        Command::Heartbeat { node, to } => write_two("heartbeat n", *node, " n", *to, out),
        Command::Report { node, to } => write_two("report n", *node, " n", *to, out),
        Command::Common { node, to } => write_two("common n", *node, " n", *to, out),
        Command::Deliver { message } => {
            out.push_str("deliver m")?;
            write_number(*message, out)
        }
        Command::DeliverLatest { from, to } => write_two("deliver n", *from, " n", *to, out),
        Command::Apply { node, workers } => write_two("apply n", *node, " ", *workers, out),
        Command::Reconfig { node, config } => write_reconfig(*node, config, out),
        Command::Crash { node, pick } => {
            write_named("crash n", *node, out)?;
            out.push_str(" ")?;
            write_number(*pick, out)
        }
        Command::DiskFail {
            node,
            disk,
            call,
            pick,
        } => { write_disk_fail(*node, *disk, *call, *pick, out) }
        Command::Clock { node, seconds } => write_two("clock n", *node, " ", *seconds, out),
        _ => unreachable!(),
    }
}
