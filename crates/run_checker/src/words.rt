// The words of commands, and what several of them share.
ghost use Rattle.std.specs.Prelude.{◌≡◌, ◌++◌, OnOk, codes, string_bytes};
ghost use Rattle.std.specs.Fmt.{decimal};
ghost use Rattle.member_config.specs.JsonText.{json_text};
ghost use Rattle.run_checker.specs.Commands.{change_words, concern_word, disk_word, document_words, id_words, level_word, pick_word, target_word, write_words};

use bson_doc::{Doc, Mem, Text, Value};
use doc_text::{write_document, write_value};
use doc_update::WriteOp;
use member_config::Config;
use set_model::{AckConcern, DiskName, ReadLevel, Target};
use transcript::{write_number, write_optime};

/// Appends words and a number.
pub fn write_named(words: &str, number: u32, out: &mut String) -> Mem<()>
    ensures { OnOk result
        (string_bytes out.new ≡ string_bytes out.old ++ (words.now ++ decimal number)) }
{
    out.push_str(words)?;
    write_number(u64::from(number), out)
}

/// Appends two numbers, with words before each.
pub fn write_two(words: &str, first: u32, between: &str, second: u32, out: &mut String) -> Mem<()>
    ensures { OnOk result (string_bytes out.new
        ≡ string_bytes out.old ++ (words.now ++ decimal first ++ between.now ++ decimal second)) }
{
    write_named(words, first, out)?;
    write_named(between, second, out)
}

/// Appends words, a node and a level.
pub fn write_leveled(words: &str, node: u32, level: ReadLevel, out: &mut String) -> Mem<()>
    ensures { OnOk result (string_bytes out.new
        ≡ string_bytes out.old ++ (words.now ++ decimal node ++ codes " " ++ level_word level)) }
{
    write_named(words, node, out)?;
    out.push_str(" ")?;
    out.push_str(level_word(level))
}

/// Appends a collection and a document.
pub fn write_stored(collection: &Text, document: &Doc, out: &mut String) -> Mem<()>
    ensures { OnOk result
        (string_bytes out.new ≡ string_bytes out.old ++ document_words collection.now document.now) }
{
    out.push_str(" ")?;
    out.push_str(collection.as_str())?;
    out.push_str(" ")?;
    write_document(document, out)
}

/// Appends a collection and an `_id`.
pub fn write_id(collection: &Text, id: &Value, out: &mut String) -> Mem<()>
    ensures { OnOk result (string_bytes out.new ≡ string_bytes out.old ++ id_words collection.now id.now) }
{
    out.push_str(" ")?;
    out.push_str(collection.as_str())?;
    out.push_str(" ")?;
    write_value(id, out)
}

/// Appends a collection, an `_id` and a document.
pub fn write_change(collection: &Text, id: &Value, document: &Doc, out: &mut String) -> Mem<()>
    ensures { OnOk result (string_bytes out.new
        ≡ string_bytes out.old ++ change_words collection.now id.now document.now) }
{
    write_id(collection, id, out)?;
    out.push_str(" ")?;
    write_document(document, out)
}

/// Appends the write of a writer.
pub fn write_op(op: &WriteOp, out: &mut String) -> Mem<()>
    ensures { OnOk result (string_bytes out.new ≡ string_bytes out.old ++ write_words op.now) }
{
    match op {
        WriteOp::Insert { ns, doc } => {
            out.push_str(" insert")?;
            write_stored(ns, doc, out)
        }
        WriteOp::Replace { ns, id, doc } => {
            out.push_str(" replace")?;
            write_change(ns, id, doc, out)
        }
        WriteOp::Update { ns, id, operators } => {
            out.push_str(" update")?;
            write_change(ns, id, operators, out)
        }
        WriteOp::Delete { ns, id } => {
            out.push_str(" delete")?;
            write_id(ns, id, out)
        }
    }
}

/// Appends a question for the acknowledgement of a write.
pub fn write_ack(node: u32, target: Target, concern: AckConcern, out: &mut String) -> Mem<()>
    ensures { OnOk result (string_bytes out.new ≡ string_bytes out.old ++ (codes "ack n" ++ decimal node
        ++ codes " " ++ target_word target ++ codes " " ++ concern_word concern)) }
{
    write_named("ack n", node, out)?;
    out.push_str(" ")?;
    write_target(target, out)?;
    out.push_str(" ")?;
    write_concern(concern, out)
}

fn write_target(target: Target, out: &mut String) -> Mem<()>
    ensures { OnOk result (string_bytes out.new ≡ string_bytes out.old ++ target_word target) }
{
    match target {
        Target::At(at) => write_optime(at, out),
        Target::Writer(writer) => write_named("w", writer, out),
    }
}

fn write_concern(concern: AckConcern, out: &mut String) -> Mem<()>
    ensures { OnOk result (string_bytes out.new ≡ string_bytes out.old ++ concern_word concern) }
{
    match concern {
        AckConcern::Majority => out.push_str("majority"),
        AckConcern::Count(count) => write_number(u64::from(count), out),
    }
}

fn level_word(level: ReadLevel) -> &'static str
    ensures { result.now ≡ level_word level }
{
    match level {
        ReadLevel::Local => "local",
        ReadLevel::Majority => "majority",
    }
}

/// Appends a new configuration.
pub fn write_reconfig(node: u32, config: &Config, out: &mut String) -> Mem<()>
    ensures { OnOk result (string_bytes out.new ≡ string_bytes out.old
        ++ (codes "reconfig n" ++ decimal node ++ codes " " ++ json_text config.now)) }
{
    write_named("reconfig n", node, out)?;
    out.push_str(" ")?;
    let json = config.to_json(*out.allocator())?;
    out.push_str(&json)
}

/// Appends the arming of a disk.
pub fn write_disk_fail(
    node: u32,
    disk: DiskName,
    call: u32,
    pick: Option<u64>,
    out: &mut String,
) -> Mem<()>
    ensures { OnOk result (string_bytes out.new ≡ string_bytes out.old ++ (codes "diskfail n" ++ decimal node
        ++ codes " " ++ disk_word disk ++ codes " " ++ decimal call ++ pick_word pick)) }
{
    write_named("diskfail n", node, out)?;
    out.push_str(" ")?;
    out.push_str(disk_word(disk))?;
    write_named(" ", call, out)?;
    write_pick(pick, out)
}

fn disk_word(disk: DiskName) -> &'static str
    ensures { result.now ≡ disk_word disk }
{
    match disk {
        DiskName::Journal => "journal",
        DiskName::Checkpoint => "checkpoint",
    }
}

fn write_pick(pick: Option<u64>, out: &mut String) -> Mem<()>
    ensures { OnOk result (string_bytes out.new ≡ string_bytes out.old ++ pick_word pick) }
{
    match pick {
        Some(pick) => {
            out.push_str(" ")?;
            write_number(pick, out)
        }
        None => Ok(()),
    }
}
