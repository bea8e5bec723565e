// The bytes of a document, appended to a buffer. A length is filled in once its document is written.
ghost use Rattle.std.specs.Prelude.{◌≡◌, ◌++◌, ◌∷◌, [], ◌<◌, ◌≤◌, ◌+◌, ◌-◌, ◌^◌, OnOk, length, take, drop, true, vec_capacity};
ghost use Rattle.std.specs.Fmt.{decimal};
ghost use Rattle.std.specs.Int.{w32, cast_unsigned};
ghost use Rattle.bson_doc.specs.View.{tree_of};
ghost use Rattle.bson_doc.specs.Tree.{array, text as a_text};
ghost use Rattle.bson_doc.specs.Length.{value_length, document_length, items_length};
ghost use Rattle.bson_codec.specs.Numbers.{number_bytes};
ghost use Rattle.std.specs.Str.{is_utf8};
ghost use Rattle.bson_doc.specs.Key.{type_byte};
ghost use Rattle.bson_codec.specs.Spelling.{element, value_bytes, document_bytes};

use crate::numbers::{put_i32, put_i64, put_u32, put_u64, set_u32};
use bson_doc::{Doc, Items, Mem, Value};
use std::alloc::Global;

/// At most this many bytes are put one by one, which is faster than a call that copies them.
pub const FEW_LETTERS: usize = 8;

/// Most names are a few letters and there is room for them: their bytes are put one by one.
fn put_name(out: &mut Vec<u8>, kind: u8, name: &str) -> Mem<()>
    ensures laid { OnOk result (out.new.items ≡ out.old.items ++ kind ∷ (name.now ++ 0 ∷ [])) }
    ensures longer { OnOk result (vec_capacity out.old ≤ vec_capacity out.new) }
{
    let letters = name.as_bytes();
    let room = out.capacity().saturating_sub(out.len());
    if letters.len() > FEW_LETTERS || room < letters.len() + 2 {
        return put_long_name(out, kind, letters);
    }
    out.push_reserved(kind);
    for letter in letters {
        out.push_reserved(*letter);
    }
    out.push_reserved(0);
    Ok(())
}

/// A name that is copied by a call. It is never inlined, so that `put_name` stays short.
#[inline(never)]
fn put_long_name(out: &mut Vec<u8>, kind: u8, letters: &[u8]) -> Mem<()>
    ensures laid { OnOk result (out.new.items ≡ out.old.items ++ kind ∷ (letters.now ++ 0 ∷ [])) }
    ensures longer { OnOk result (vec_capacity out.old ≤ vec_capacity out.new) }
{
    out.push(kind)?;
    out.extend_from_slice(letters)?;
    Ok(out.push(0)?)
}

/// A field whose value is a number of four bytes, as most are.
fn put_int32(out: &mut Vec<u8>, name: &str, number: i32) -> Mem<()>
    ensures laid { OnOk result (out.new.items ≡ out.old.items
        ++ element 16 name.now (number_bytes 4 (cast_unsigned w32 number))) }
    ensures longer { OnOk result (vec_capacity out.old ≤ vec_capacity out.new) }
{
    put_name(out, 16, name)?;
    put_i32(out, number)
}

/// An item's name: its place in decimal.
fn put_place(alloc: Global, out: &mut Vec<u8>, kind: u8, place: usize) -> Mem<()>
    ensures laid { OnOk result (out.new.items ≡ out.old.items ++ kind ∷ (decimal place ++ 0 ∷ [])) }
    ensures longer { OnOk result (vec_capacity out.old ≤ vec_capacity out.new) }
{
    let name = place.to_string(alloc)?;
    put_name(out, kind, name.as_str())
}

fn put_text(out: &mut Vec<u8>, text: &str) -> Mem<()>
    requires { length text.now + 1 < 2 ^ 31 }
    ensures laid { OnOk result (out.new.items ≡ out.old.items
        ++ (number_bytes 4 (length text.now + 1) ++ text.now ++ 0 ∷ [])) }
    ensures longer { OnOk result (vec_capacity out.old ≤ vec_capacity out.new) }
{
    put_u32(out, text.len() as u32 + 1)?;
    out.extend_from_slice(text.as_bytes())?;
    Ok(out.push(0)?)
}

fn put_binary(out: &mut Vec<u8>, subtype: u8, bytes: &[u8]) -> Mem<()>
    requires { length bytes.now < 2 ^ 31 }
    ensures laid { OnOk result (out.new.items ≡ out.old.items
        ++ (number_bytes 4 (length bytes.now) ++ subtype ∷ bytes.now)) }
    ensures longer { OnOk result (vec_capacity out.old ≤ vec_capacity out.new) }
{
    put_u32(out, bytes.len() as u32)?;
    out.push(subtype)?;
    out.extend_from_slice(bytes)
}

/// Ends the document that begins at `start` with four bytes of room for its length. The only error is
/// out of memory.
pub fn close(out: &mut Vec<u8>, start: usize) -> Mem<()>
    requires room { start + 4 ≤ length out.old.items }
    requires short { length out.old.items + 1 < start + 2 ^ 31 }
    ensures laid { OnOk result (out.new.items
        ≡ (take start out.old.items ++ number_bytes 4 (length out.old.items + 1 - start))
        ++ (drop (start + 4) out.old.items ++ 0 ∷ [])) }
    ensures longer { OnOk result (vec_capacity out.old ≤ vec_capacity out.new) }
{
    out.push(0)?;
    let length = (out.len() - start) as u32;
    set_u32(out, start, length);
    Ok(())
}

#[cycle(write)]
fn write_value(alloc: Global, value: &Value, out: &mut Vec<u8>) -> Mem<()>
    requires { value_length (tree_of value.now) < 2 ^ 31 }
    ensures laid { OnOk result (out.new.items ≡ out.old.items ++ value_bytes (tree_of value.now)) }
    ensures longer { OnOk result (vec_capacity out.old ≤ vec_capacity out.new) }
{
    match value {
        Value::Null => Ok(()),
        Value::Int32(number) => put_i32(out, *number),
        Value::Int64(number) | Value::Date(number) => put_i64(out, *number),
        Value::Timestamp(number) => put_u64(out, *number),
        Value::Text(text) => put_text(out, text.as_str()),
        Value::Document(document) => write(alloc, document, out),
        Value::Array(items) => write_items(alloc, items, out),
        Value::Binary(subtype, bytes) => put_binary(out, *subtype, bytes.as_slice()),
        Value::ObjectId(id) => out.extend_from_slice(id),
        Value::Boolean(truth) => Ok(out.push(u8::from(*truth))?),
    }
}

/// Appends a field: its kind, its name and its value. The only error is out of memory, and then nothing is
/// promised about `out`; the same holds for `put_string` and `put_document`.
#[cycle(write)]
pub fn put_field(alloc: Global, out: &mut Vec<u8>, name: &str, value: &Value) -> Mem<()>
    requires { value_length (tree_of value.now) < 2 ^ 31 }
    ensures laid { OnOk result (out.new.items ≡ out.old.items
        ++ element (type_byte (tree_of value.now)) name.now (value_bytes (tree_of value.now))) }
    ensures longer { OnOk result (vec_capacity out.old ≤ vec_capacity out.new) }
{
    if let Value::Int32(number) = value {
        return put_int32(out, name, *number);
    }
    put_name(out, value.kind(), name)?;
    write_value(alloc, value, out)
}

#[cycle(write)]
fn write_items(alloc: Global, items: &Items, out: &mut Vec<u8>) -> Mem<()>
    requires { 5 + items_length 0 items.now < 2 ^ 31 }
    ensures laid { OnOk result (out.new.items ≡ out.old.items ++ value_bytes (array items.now)) }
    ensures longer { OnOk result (vec_capacity out.old ≤ vec_capacity out.new) }
{
    let start = out.len();
    out.extend_from_slice(&[0; 4])?;
    for place in 0..items.len() {
        let Some(value) = items.at(place) else {
            unreachable!()
        };
        put_place(alloc, out, value.kind(), place)?;
        write_value(alloc, value, out)?;
    }
    close(out, start)
}

/// Appends the bytes of a document.
#[cycle(write)]
pub fn write(alloc: Global, document: &Doc, out: &mut Vec<u8>) -> Mem<()>
    requires { document_length document.now < 2 ^ 31 }
    ensures laid { OnOk result (out.new.items ≡ out.old.items ++ document_bytes document.now) }
    ensures longer { OnOk result (vec_capacity out.old ≤ vec_capacity out.new) }
{
    let start = out.len();
    out.extend_from_slice(&[0; 4])?;
    for place in 0..document.len() {
        let Some((name, value)) = document.at(place) else {
            unreachable!()
        };
        put_field(alloc, out, name, value)?;
    }
    close(out, start)
}

/// Appends a field whose value is a string.
pub fn put_string(out: &mut Vec<u8>, name: &str, string: &str) -> Mem<()>
    requires { length string.now + 1 < 2 ^ 31 }
    ensures laid { OnOk result (out.new.items ≡ out.old.items
        ++ element 2 name.now (value_bytes (a_text string.now))) }
    ensures sound { is_utf8 string.now ≡ true }
    ensures longer { OnOk result (vec_capacity out.old ≤ vec_capacity out.new) }
{
    put_name(out, 2, name)?;
    put_text(out, string)
}

/// Appends a field whose value is a document.
pub fn put_document(alloc: Global, out: &mut Vec<u8>, name: &str, document: &Doc) -> Mem<()>
    requires { document_length document.now < 2 ^ 31 }
    ensures laid { OnOk result (out.new.items ≡ out.old.items
        ++ element 3 name.now (document_bytes document.now)) }
    ensures longer { OnOk result (vec_capacity out.old ≤ vec_capacity out.new) }
{
    put_name(out, 3, name)?;
    write(alloc, document, out)
}

/// Overwrites the four bytes at a place with the number of bytes that come after them.
pub fn put_size(out: &mut Vec<u8>, start: usize)
    requires room { start + 4 ≤ length out.old.items }
    requires short { length out.old.items < start + 4 + 2 ^ 32 }
    ensures laid { out.new.items
        ≡ (take start out.old.items ++ number_bytes 4 (length out.old.items - (start + 4)))
        ++ drop (start + 4) out.old.items }
    ensures longer { vec_capacity out.old ≤ vec_capacity out.new }
{
    let size = (out.len() - start - 4) as u32;
    set_u32(out, start, size);
}
