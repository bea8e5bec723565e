// The parts of records as they are read.
ghost use Rattle.std.specs.Prelude.{◌≡◌, ◌<◌, ◌^◌, ℕ, true, List, length, Some, IsSome, IfOk};
ghost use Rattle.std.specs.Str.{is_utf8};
ghost use Rattle.entry_bytes.specs.Optimes.{optime_bytes};
ghost use Rattle.rs_optime.specs.declared.optime.OpTime.{OpTime as AnOpTime};
ghost use Rattle.record_file.specs.Turn.{BeginsWith, Reads};
ghost use Rattle.bson_doc.specs.Sound.{IsSound};
ghost use Rattle.bson_doc.specs.Tree.{Fields};
ghost use Rattle.bson_codec.specs.Spelling.{IsSpelling};
ghost use Rattle.oplog_entry.specs.Step.{id_key};
ghost use Rattle.checkpoint_store.specs.Layout.{saved_bytes, sized};
ghost use Rattle.checkpoint_store.specs.Spelled.{IsOptime, IsSaved};

use crate::numbers::{u32_of, u64_of};
use bson_codec::{DOCUMENT, DecodeError, decode};
use bson_doc::{Doc, IdKey, KeyError, Text};
use rs_optime::{Mem, OpTime};
use std::alloc::{AllocError, Global};
use std::str::from_utf8;

pub(crate) fn optime_of(bytes: &[u8]) -> OpTime
    requires { (at : AnOpTime) × IsOptime at × (bytes.now ≡ optime_bytes at) }
    ensures { (at : AnOpTime) → IsOptime at → bytes.now ≡ optime_bytes at → result ≡ at }
{
    let (term, rest) = u64_of(bytes);
    let (ts, _) = u64_of(rest);
    OpTime { term, ts }
}

// The bytes after their length, and what follows them.
fn sized_of(bytes: &[u8]) -> (&[u8], &[u8])
    requires { BeginsWith (λ (piece : List ℕ). length piece < 2 ^ 32) sized bytes.now }
    ensures { Reads (λ (piece : List ℕ). length piece < 2 ^ 32) sized bytes.now result.0.now result.1.now }
{
    let (size, rest) = u32_of(bytes);
    rest.split_at(size as usize)
}

fn text_of(alloc: Global, bytes: &[u8]) -> Mem<Text>
    requires { is_utf8 bytes.now ≡ true }
    ensures { IfOk result (λ text. text ≡ bytes.now) }
{
    match from_utf8(bytes) {
        Ok(text) => Text::from_str(alloc, text),
        Err(_) => unreachable!(),
    }
}

fn document_of(alloc: Global, bytes: &[u8]) -> Mem<Doc>
    requires { (document : Fields) × IsSound document × IsSpelling 262144 100 document bytes.now }
    ensures { IfOk result (λ read.
        (document : Fields) → IsSound document → IsSpelling 262144 100 document bytes.now
        → read ≡ document) }
{
    match decode(alloc, bytes, DOCUMENT) {
        Ok(document) => Ok(document),
        Err(DecodeError::Memory) => Err(AllocError),
        Err(_) => unreachable!(),
    }
}

fn key_of(document: &Doc) -> Mem<IdKey>
    requires { IsSome (id_key document.now) }
    ensures { IfOk result (λ key. id_key document.now ≡ Some key) }
{
    let Some(id) = document.get("_id") else {
        unreachable!();
    };
    match IdKey::of(id) {
        Ok(key) => Ok(key),
        Err(KeyError::Memory) => Err(AllocError),
        Err(KeyError::Kind(_)) => unreachable!(),
    }
}

// A document at its place, and what follows it.
pub(crate) fn saved_of(alloc: Global, bytes: &[u8]) -> Mem<(((Text, IdKey), Doc), &[u8])>
    requires { BeginsWith IsSaved saved_bytes bytes.now }
    ensures { IfOk result (λ read. Reads IsSaved saved_bytes bytes.now read.0 read.1.now) }
{
    let (name, rest) = sized_of(bytes);
    let (piece, rest) = sized_of(rest);
    let document = document_of(alloc, piece)?;
    let place = (text_of(alloc, name)?, key_of(&document)?);
    Ok(((place, document), rest))
}
