// Entries without a target, read without building a document of their members. In the layout of entries each
// part has its place, and the bytes between the parts are the same in every entry.
ghost use Rattle.std.specs.Prelude.{◌≡◌, ◌<◌, ◌^◌, ◌↔◌, ◌∷◌, ◌++◌, [], codes, length, None, Some, true, IfOk, IfSome, IsTrue};
ghost use Rattle.std.specs.Str.{is_utf8};
ghost use Rattle.bson_doc.specs.Tree.{no_fields, text};
ghost use Rattle.bson_codec.specs.Numbers.{number_bytes};
ghost use Rattle.bson_codec.specs.Sound.{IsSound};
ghost use Rattle.bson_codec.specs.Spelling.{IsSpelling, element, fields_bytes, value_bytes};
ghost use Rattle.oplog_entry.specs.Lawful.{IsLawful, IsSession};
ghost use Rattle.entry_bytes.specs.Layout.{body_of, document_of, session_members};
ghost use Rattle.entry_bytes.specs.Parts.{AreMembersOf, stamped};

use crate::EntryError;
use crate::ops::{may_have, other_of};
use bson_codec::{ENTRY, decode, u32_of, u64_of};
use bson_doc::{Bounds, Mem, Text};
use oplog_entry::{Entry, Session, SharedOp};
use rs_optime::OpTime;
use std::alloc::{AllocError, Global};
use std::str::from_utf8;

/// The bounds of the member `o`, which is a level below the entry's document.
const BODY: Bounds = Bounds {
    bytes: 1_048_576,
    levels: 102,
};

/// What is at the places of an entry's parts, where there is no target.
#[derive(Drop)]
struct Parts<'a> {
    optime: OpTime,
    letter: &'a str,
    ns: &'a str,
    o: &'a [u8],
    session: Option<Session>,
}

/// What follows the name of the timestamp.
fn after_ts(bytes: &[u8]) -> Option<&[u8]>
    ensures { IfSome result (λ rest. bytes.now ≡ 17 ∷ 116 ∷ 115 ∷ 0 ∷ rest.now) }
{
    let [0x11, b't', b's', 0, rest @ ..] = bytes else {
        return None;
    };
    Some(rest)
}

/// What follows the name of the term.
fn after_t(bytes: &[u8]) -> Option<&[u8]>
    ensures { IfSome result (λ rest. bytes.now ≡ 18 ∷ 116 ∷ 0 ∷ rest.now) }
{
    let [0x12, b't', 0, rest @ ..] = bytes else {
        return None;
    };
    Some(rest)
}

/// What follows the name of the version.
fn after_v(bytes: &[u8]) -> Option<&[u8]>
    ensures { IfSome result (λ rest. bytes.now ≡ 16 ∷ 118 ∷ 0 ∷ rest.now) }
{
    let [0x10, b'v', 0, rest @ ..] = bytes else {
        return None;
    };
    Some(rest)
}

/// What follows the name of the letter.
fn after_op(bytes: &[u8]) -> Option<&[u8]>
    ensures { IfSome result (λ rest. bytes.now ≡ 2 ∷ 111 ∷ 112 ∷ 0 ∷ rest.now) }
{
    let [0x02, b'o', b'p', 0, rest @ ..] = bytes else {
        return None;
    };
    Some(rest)
}

/// What follows the name of the collection.
fn after_ns(bytes: &[u8]) -> Option<&[u8]>
    ensures { IfSome result (λ rest. bytes.now ≡ 2 ∷ 110 ∷ 115 ∷ 0 ∷ rest.now) }
{
    let [0x02, b'n', b's', 0, rest @ ..] = bytes else {
        return None;
    };
    Some(rest)
}

/// What follows the name of a session.
fn after_lsid(bytes: &[u8]) -> Option<&[u8]>
    ensures { IfSome result (λ rest. bytes.now ≡ 18 ∷ 108 ∷ 115 ∷ 105 ∷ 100 ∷ 0 ∷ rest.now) }
{
    let [0x12, b'l', b's', b'i', b'd', 0, rest @ ..] = bytes else {
        return None;
    };
    Some(rest)
}

/// What follows the name of a write's number.
fn after_number(bytes: &[u8]) -> Option<&[u8]>
    ensures { IfSome result (λ rest. bytes.now
        ≡ 18 ∷ 116 ∷ 120 ∷ 110 ∷ 78 ∷ 117 ∷ 109 ∷ 98 ∷ 101 ∷ 114 ∷ 0 ∷ rest.now) }
{
    let [
        0x12,
        b't',
        b'x',
        b'n',
        b'N',
        b'u',
        b'm',
        b'b',
        b'e',
        b'r',
        0,
        rest @ ..,
    ] = bytes
    else {
        return None;
    };
    Some(rest)
}

/// What follows a zero.
fn after_zero(bytes: &[u8]) -> Option<&[u8]>
    ensures { IfSome result (λ rest. bytes.now ≡ 0 ∷ rest.now) }
{
    let [0, rest @ ..] = bytes else {
        return None;
    };
    Some(rest)
}

/// The number in the first eight bytes, and what follows them.
fn long_of(bytes: &[u8]) -> Option<(u64, &[u8])>
    ensures { IfSome result (λ x. bytes.now ≡ number_bytes 8 x.0 ++ x.1.now) }
{
    match u64_of(bytes) {
        Ok((number, rest)) => Some((number, rest)),
        Err(_) => None,
    }
}

/// The number in the first four bytes, and what follows them.
fn short_of(bytes: &[u8]) -> Option<(u32, &[u8])>
    ensures { IfSome result (λ x. bytes.now ≡ number_bytes 4 x.0 ++ x.1.now) }
{
    match u32_of(bytes) {
        Ok((number, rest)) => Some((number, rest)),
        Err(_) => None,
    }
}

/// The optime and the version, and what follows them.
fn stamp_of(bytes: &[u8]) -> Option<(OpTime, &[u8])>
    ensures ts { IfSome result (λ x. x.0.ts < 2 ^ 64) }
    ensures term { IfSome result (λ x. x.0.term < 2 ^ 63) }
    ensures spelled { IfSome result (λ x. bytes.now ≡ fields_bytes (stamped x.0 no_fields) ++ x.1.now) }
{
    let (ts, rest) = long_of(after_ts(bytes)?)?;
    let (term, rest) = long_of(after_t(rest)?)?;
    let (version, rest) = short_of(after_v(rest)?)?;
    if version != 2 || term >= 1 << 63 {
        return None;
    }
    Some((OpTime { term, ts }, rest))
}

/// The first `count` bytes as letters, and what follows the zero that closes them.
fn letters_of(count: usize, bytes: &[u8]) -> Option<(&str, &[u8])>
    ensures count { IfSome result (λ x. length x.0.now ≡ count) }
    ensures spelled { IfSome result (λ x. bytes.now ≡ x.0.now ++ 0 ∷ x.1.now) }
{
    if bytes.len() <= count {
        return None;
    }
    let (letters, after) = bytes.split_at(count);
    let rest = after_zero(after)?;
    match from_utf8(letters) {
        Ok(text) => Some((text, rest)),
        Err(_) => None,
    }
}

/// A string as a value, and what follows it.
fn string_of(bytes: &[u8]) -> Option<(&str, &[u8])>
    ensures { IfSome result (λ x. bytes.now ≡ value_bytes (text x.0.now) ++ x.1.now) }
{
    let (size, rest) = short_of(bytes)?;
    if size == 0 {
        return None;
    }
    letters_of(size as usize - 1, rest)
}

/// The letter and the collection, and what follows them.
fn strings_of(bytes: &[u8]) -> Option<((&str, &str), &[u8])>
    ensures { IfSome result (λ x. bytes.now
        ≡ element 2 (codes "op") (value_bytes (text x.0.0.now))
        ++ (element 2 (codes "ns") (value_bytes (text x.0.1.now)) ++ x.1.now)) }
{
    let (letter, rest) = string_of(after_op(bytes)?)?;
    let (ns, rest) = string_of(after_ns(rest)?)?;
    Some(((letter, ns), rest))
}

/// The document `o`, which begins with its length, and what follows it.
fn body_in(bytes: &[u8]) -> Option<(&[u8], &[u8])>
    ensures { IfSome result (λ x. bytes.now ≡ element 3 (codes "o") x.0.now ++ x.1.now) }
{
    let [3, b'o', 0, rest @ ..] = bytes else {
        return None;
    };
    let (size, _) = short_of(rest)?;
    if rest.len() < size as usize {
        return None;
    }
    Some(rest.split_at(size as usize))
}

/// The number in the first eight bytes, if it fits in four, and what follows them.
fn narrow_of(bytes: &[u8]) -> Option<(u32, &[u8])>
    ensures { IfSome result (λ x. bytes.now ≡ number_bytes 8 x.0 ++ x.1.now) }
{
    let (number, rest) = long_of(bytes)?;
    if number >= 1 << 32 {
        return None;
    }
    Some((number as u32, rest))
}

/// Whether nothing is left but the zero that closes a document.
fn is_end(bytes: &[u8]) -> bool
    ensures { IsTrue result ↔ (bytes.now ≡ 0 ∷ []) }
{
    bytes.len() == 1 && bytes[0] == 0
}

/// The members of a session's write, if the entry's document ends after them.
fn numbers_in(bytes: &[u8]) -> Option<Session>
    ensures session { IfSome result IsSession }
    ensures spelled { IfSome result (λ s. bytes.now ≡ fields_bytes (session_members (Some s)) ++ 0 ∷ []) }
{
    let (id, rest) = narrow_of(after_lsid(bytes)?)?;
    let (number, rest) = narrow_of(after_number(rest)?)?;
    if !is_end(rest) {
        return None;
    }
    Some(Session { id, number })
}

/// The members of a session's write, or none where the entry's document ends here.
fn session_in(bytes: &[u8]) -> Option<Option<Session>>
    ensures session { IfSome result (λ s. IfSome s IsSession) }
    ensures spelled { IfSome result (λ s. bytes.now ≡ fields_bytes (session_members s) ++ 0 ∷ []) }
{
    if is_end(bytes) {
        return Some(None);
    }
    Some(Some(numbers_in(bytes)?))
}

/// Letters are UTF-8: a fact for the proofs here, which costs nothing.
fn recall_utf8(letters: &str)
    ensures { is_utf8 letters.now ≡ true }
{
    let _ = letters;
}

/// The parts, each at the end of the bytes before it.
fn parts_in(bytes: &[u8]) -> Option<Parts<'_>>
    ensures ts { IfSome result (λ p. p.optime.ts < 2 ^ 64) }
    ensures term { IfSome result (λ p. p.optime.term < 2 ^ 63) }
    ensures session { IfSome result (λ p. IfSome p.session IsSession) }
    ensures spelled { IfSome result (λ p. bytes.now
        ≡ number_bytes 4 (length bytes.now) ++ (fields_bytes (stamped p.optime no_fields)
        ++ (element 2 (codes "op") (value_bytes (text p.letter.now))
        ++ (element 2 (codes "ns") (value_bytes (text p.ns.now))
        ++ (element 3 (codes "o") p.o.now ++ (fields_bytes (session_members p.session) ++ 0 ∷ [])))))) }
{
    let (size, rest) = short_of(bytes)?;
    if size as usize != bytes.len() {
        return None;
    }
    let (optime, rest) = stamp_of(rest)?;
    let ((letter, ns), rest) = strings_of(rest)?;
    let (o, rest) = body_in(rest)?;
    let session = session_in(rest)?;
    Some(Parts {
        optime,
        letter,
        ns,
        o,
        session,
    })
}

/// The entry of these parts.
fn entry_at(alloc: Global, parts: &Parts<'_>) -> Result<Entry, EntryError>
    requires term { parts.now.optime.term < 2 ^ 63 }
    requires session { IfSome parts.now.session IsSession }
    ensures lawful { IfOk result IsLawful }
    ensures optime { IfOk result (λ e. e.optime ≡ parts.now.optime) }
    ensures session { IfOk result (λ e. e.session ≡ parts.now.session) }
    ensures op { IfOk result (λ e.
        AreMembersOf e.op parts.now.letter.now parts.now.ns.now (body_of e.op) None) }
    ensures body { IfOk result (λ e. IsSound (body_of e.op)
        × IsSpelling 1048576 102 (body_of e.op) parts.now.o.now) }
{
    let ns = Text::from_str(alloc, parts.ns)?;
    let o = decode(alloc, parts.o, BODY)?;
    let op = other_of(parts.letter, ns, o)?;
    if !may_have(&op, parts.session) {
        return Err(EntryError::Shape);
    }
    Ok(Entry {
        optime: parts.optime,
        op: SharedOp::new(alloc, op)?,
        session: parts.session,
    })
}

/// The entry that the bytes spell, where its parts are at their places and it has no target. None only says
/// that no entry was found this way.
pub(crate) fn direct(alloc: Global, bytes: &[u8]) -> Mem<Option<Entry>>
    ensures { IfOk result (λ found. IfSome found (λ e. IsLawful e × IsSound (document_of e)
        × IsSpelling ENTRY.bytes ENTRY.levels (document_of e) bytes.now)) }
{
    if bytes.len() > ENTRY.bytes as usize {
        return Ok(None);
    }
    let Some(parts) = parts_in(bytes) else {
        return Ok(None);
    };
    recall_utf8(parts.letter);
    recall_utf8(parts.ns);
    match entry_at(alloc, &parts) {
        Ok(entry) => Ok(Some(entry)),
        Err(EntryError::Memory) => Err(AllocError),
        Err(_) => Ok(None),
    }
}
