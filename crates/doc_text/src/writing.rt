// The one text of each value.
ghost use Rattle.std.specs.Prelude.{◌≡◌, ◌++◌, OnOk, OnErr, codes, string_bytes, false};
ghost use Rattle.bson_doc.specs.View.{tree_of};
ghost use Rattle.bson_doc.specs.Tree.{int32, int64, document, array, binary, object_id, date};
ghost use Rattle.bson_doc.specs.Tree as tree;
ghost use Rattle.doc_text.specs.Bytes.{is_plain};
ghost use Rattle.doc_text.specs.Spelling.{IsLawful, Spells};
ghost use Rattle.doc_text.specs.Again.{IsReadAgain};
ghost use Rattle.doc_text.specs.Printing.{separator, printed, printed_name, is_bare, quoted, printed_byte};

use crate::class::{Class, starts_name};
use crate::marks::skip;
use bson_doc::{Doc, Items, Mem, Value};
use std::alloc::Global;
use std::fmt::Write;

/// The escape of a byte that has to be escaped.
#[tactic(auto, using(crate::proofs::Quoting::code_printed))]
fn write_escape(byte: u8, out: &mut String) -> Mem<()>
    requires { is_plain byte ≡ false }
    ensures { OnOk result (string_bytes out.new ≡ string_bytes out.old ++ printed_byte byte) }
{
    match byte {
        b'"' => out.push_str("\\\""),
        b'\\' => out.push_str("\\\\"),
        b'\n' => out.push_str("\\n"),
        b'\r' => out.push_str("\\r"),
        b'\t' => out.push_str("\\t"),
        _ => {
            out.push_str("\\u00")?;
            out.push_str(&hex::encode(*out.allocator(), [byte])?)
        }
    }
}

/// A string between quotation marks.
fn write_string(string: &str, out: &mut String) -> Mem<()>
    ensures { OnOk result (string_bytes out.new ≡ string_bytes out.old ++ quoted string.now) }
{
    out.push_str("\"")?;
    let mut rest = string;
    loop {
        let (plain, stop) = Class::Plain.run(rest);
        out.push_str(plain)?;
        let [byte, ..] = stop.as_bytes() else {
            break;
        };
        write_escape(*byte, out)?;
        rest = skip(stop);
    }
    out.push_str("\"")
}

fn is_bare(name: &str) -> bool
    ensures { result ≡ is_bare name.now }
{
    let (_, rest) = Class::Name.run(name);
    match name.as_bytes() {
        [first, ..] => starts_name(*first) && rest.is_empty(),
        [] => false,
    }
}

fn write_name(name: &str, out: &mut String) -> Mem<()>
    ensures { OnOk result (string_bytes out.new ≡ string_bytes out.old ++ printed_name name.now) }
{
    if is_bare(name) {
        out.push_str(name)
    } else {
        write_string(name, out)
    }
}

// Each writer also states what its type implies about a value: a number is in its kind's range, and so on.
#[tactic(auto, unfolding(crate::specs::Printing::printed))]
fn write_int32(number: i32, out: &mut String) -> Mem<()>
    ensures written { OnOk result (string_bytes out.new ≡ string_bytes out.old ++ printed (int32 number)) }
    ensures lawful { IsLawful (int32 number) }
{
    write!(out, "{number}")
}

#[tactic(auto, unfolding(crate::specs::Printing::printed))]
fn write_int64(number: i64, out: &mut String) -> Mem<()>
    ensures written { OnOk result (string_bytes out.new ≡ string_bytes out.old ++ printed (int64 number)) }
    ensures lawful { IsLawful (int64 number) }
{
    write!(out, "{number}L")
}

#[tactic(auto, unfolding(crate::specs::Printing::printed))]
fn write_date(milliseconds: i64, out: &mut String) -> Mem<()>
    ensures written { OnOk result
        (string_bytes out.new ≡ string_bytes out.old ++ printed (date milliseconds)) }
    ensures lawful { IsLawful (date milliseconds) }
{
    write!(out, "Date({milliseconds})")
}

#[tactic(auto, unfolding(crate::specs::Printing::printed))]
fn write_binary(subtype: u8, bytes: &[u8], out: &mut String) -> Mem<()>
    ensures written { OnOk result
        (string_bytes out.new ≡ string_bytes out.old ++ printed (binary subtype bytes.now)) }
    ensures lawful { IsLawful (binary subtype bytes.now) }
{
    let digits = hex::encode(*out.allocator(), bytes)?;
    write!(out, "Bin({subtype}, \"{digits}\")")
}

#[tactic(auto, unfolding(crate::specs::Printing::printed))]
fn write_id(bytes: [u8; 12], out: &mut String) -> Mem<()>
    ensures written { OnOk result (string_bytes out.new ≡ string_bytes out.old ++ printed (object_id bytes)) }
    ensures lawful { IsLawful (object_id bytes) }
{
    let digits = hex::encode(*out.allocator(), bytes)?;
    write!(out, "Id(\"{digits}\")")
}

#[tactic(auto, unfolding(crate::specs::Printing::printed))]
fn write_timestamp(timestamp: u64, out: &mut String) -> Mem<()>
    ensures written { OnOk result
        (string_bytes out.new ≡ string_bytes out.old ++ printed (tree.timestamp timestamp)) }
    ensures lawful { IsLawful (tree.timestamp timestamp) }
{
    let seconds = timestamp >> 32;
    let increment = timestamp % (1 << 32);
    write!(out, "Time({seconds}, {increment})")
}

/// What comes before the member at a place.
fn write_separator(place: usize, out: &mut String) -> Mem<()>
    ensures { OnOk result (string_bytes out.new ≡ string_bytes out.old ++ separator place) }
{
    if place == 0 {
        return Ok(());
    }
    out.push_str(", ")
}

fn write_key(name: &str, out: &mut String) -> Mem<()>
    ensures { OnOk result
        (string_bytes out.new ≡ string_bytes out.old ++ (printed_name name.now ++ codes ": ")) }
{
    write_name(name, out)?;
    out.push_str(": ")
}

#[cycle(write)]
#[tactic(auto, unfolding(crate::specs::Printing::printed))]
fn write_fields(fields: &Doc, out: &mut String) -> Mem<()>
    ensures written { OnOk result
        (string_bytes out.new ≡ string_bytes out.old ++ printed (document fields.now)) }
    ensures lawful { OnOk result (IsLawful (document fields.now)) }
{
    fields.recall_sound();
    out.push_str("{")?;
    for place in 0..fields.len() {
        let Some((name, value)) = fields.at(place) else {
            unreachable!();
        };
        write_separator(place, out)?;
        write_key(name, out)?;
        write(value, out)?;
    }
    out.push_str("}")
}

#[cycle(write)]
#[tactic(auto, unfolding(crate::specs::Printing::printed))]
fn write_items(items: &Items, out: &mut String) -> Mem<()>
    ensures written { OnOk result (string_bytes out.new ≡ string_bytes out.old ++ printed (array items.now)) }
    ensures lawful { OnOk result (IsLawful (array items.now)) }
{
    out.push_str("[")?;
    for place in 0..items.len() {
        let Some(value) = items.at(place) else {
            unreachable!();
        };
        write_separator(place, out)?;
        write(value, out)?;
    }
    out.push_str("]")
}

#[cycle(write)]
#[tactic(auto, unfolding(crate::specs::Printing::printed))]
fn write(value: &Value, out: &mut String) -> Mem<()>
    ensures written { OnOk result
        (string_bytes out.new ≡ string_bytes out.old ++ printed (tree_of value.now)) }
    ensures lawful { OnOk result (IsLawful (tree_of value.now)) }
{
    match value {
        Value::Null => out.push_str("null"),
        Value::Boolean(true) => out.push_str("true"),
        Value::Boolean(false) => out.push_str("false"),
        Value::Int32(number) => write_int32(*number, out),
        Value::Int64(number) => write_int64(*number, out),
        Value::Text(text) => write_string(text.as_str(), out),
        Value::Document(fields) => write_fields(fields, out),
        Value::Array(items) => write_items(items, out),
        Value::Date(milliseconds) => write_date(*milliseconds, out),
        Value::Binary(subtype, bytes) => write_binary(*subtype, bytes.as_slice(), out),
        Value::ObjectId(bytes) => write_id(*bytes, out),
        Value::Timestamp(timestamp) => write_timestamp(*timestamp, out),
    }
}

/// Appends the text of a value in the notation. A value always has the same text. Out of memory leaves `out`
/// as it was.
pub fn write_value(value: &Value, out: &mut String) -> Mem<()>
    ensures ok { OnOk result (string_bytes out.new ≡ string_bytes out.old ++ printed (tree_of value.now)) }
    ensures err { OnErr result (string_bytes out.new ≡ string_bytes out.old) }
    ensures lawful { OnOk result (IsLawful (tree_of value.now)) }
    // What was written is a spelling of the value, and is read back, whatever follows, unless that
    // continues a number.
    ensures spelled { OnOk result (Spells (tree_of value.now) (printed (tree_of value.now))) }
    ensures again { OnOk result
        (IsReadAgain (string_bytes out.old) (string_bytes out.new) (tree_of value.now)) }
{
    let mut text = String::new(*out.allocator());
    write(value, &mut text)?;
    out.push_str(&text)?;
    Ok(())
}

/// Appends the text of a document in the notation. A document always has the same text. Out of memory leaves
/// `out` as it was.
pub fn write_document(document: &Doc, out: &mut String) -> Mem<()>
    ensures ok { OnOk result
        (string_bytes out.new ≡ string_bytes out.old ++ printed (tree.document document.now)) }
    ensures err { OnErr result (string_bytes out.new ≡ string_bytes out.old) }
    ensures lawful { OnOk result (IsLawful (tree.document document.now)) }
    ensures spelled { OnOk result
        (Spells (tree.document document.now) (printed (tree.document document.now))) }
    ensures again { OnOk result
        (IsReadAgain (string_bytes out.old) (string_bytes out.new) (tree.document document.now)) }
{
    let mut text = String::new(*out.allocator());
    write_fields(document, &mut text)?;
    out.push_str(&text)?;
    Ok(())
}
