// The lines of changes, and the last line.
ghost use Rattle.std.specs.Prelude.{◌≡◌, ◌++◌, OnOk, codes, string_bytes};
ghost use Rattle.bson_doc.specs.Tree as tree;
ghost use Rattle.bson_doc.specs.View.{tree_of};
ghost use Rattle.doc_text.specs.Printing.{printed};
ghost use Rattle.entry_bytes.specs.Layout.{body_of};
ghost use Rattle.oplog_entry.specs.Lawful.{IsLawful, IsLawfulOp};
ghost use Rattle.change_words.specs.Texts.{change_text, is_of, op_text, refusal_text, resume_text};

use crate::refusal::WatchRefusal;
use crate::tokens::write_token;
use bson_doc::{Doc, Mem, Text, Value};
use doc_text::{write_document, write_value};
use entry_bytes::body;
use oplog_entry::{Entry, Op};
use rs_optime::OpTime;

/// Whether an op changes this collection.
pub fn is_of(collection: &Text, op: &Op) -> bool
    ensures { result ≡ is_of collection.now op.now }
{
    match op {
        Op::Insert { ns, .. }
        | Op::Replace { ns, .. }
        | Op::Fields { ns, .. }
        | Op::Delete { ns, .. } => ns.as_str() == collection.as_str(),
        Op::Noop | Op::Note => false,
    }
}

/// Writes the line of a change into `text`, in place of what was there. If memory runs out, `text` is of no
/// use.
pub fn set_change(entry: &Entry, text: &mut String) -> Mem<()>
    requires { IsLawful entry.now }
    ensures { OnOk result (string_bytes text.new ≡ change_text entry.now) }
{
    text.clear();
    text.push_str("change ")?;
    write_token(entry.optime, text)?;
    write_op(entry.op.or(&Op::Noop), text)?;
    text.push_str("\n")
}

fn write_op(op: &Op, out: &mut String) -> Mem<()>
    requires { IsLawfulOp op.now }
    ensures { OnOk result (string_bytes out.new ≡ string_bytes out.old ++ op_text op.now) }
{
    match op {
        Op::Insert { ns, o } => {
            write_words(" insert ", ns, out)?;
            write_document(o, out)
        }
        Op::Replace { ns, id, o } => {
            write_words(" replace ", ns, out)?;
            write_both(id, o, out)
        }
        Op::Fields { ns, id, .. } => {
            write_words(" update ", ns, out)?;
            write_changes(id, op, out)
        }
        Op::Delete { ns, id } => {
            write_words(" delete ", ns, out)?;
            write_value(id, out)
        }
        Op::Noop | Op::Note => Ok(()),
    }
}

/// An `_id`, and what an op does to the document.
fn write_changes(id: &Value, op: &Op, out: &mut String) -> Mem<()>
    requires { IsLawfulOp op.now }
    ensures { OnOk result (string_bytes out.new ≡ string_bytes out.old
        ++ (printed (tree_of id.now) ++ codes " " ++ printed (tree.document (body_of op.now)))) }
{
    let changes = body(*out.allocator(), op)?;
    write_both(id, &changes, out)
}

/// What is done, and to which collection.
fn write_words(words: &str, ns: &Text, out: &mut String) -> Mem<()>
    ensures { OnOk result
        (string_bytes out.new ≡ string_bytes out.old ++ (words.now ++ ns.now ++ codes " ")) }
{
    out.push_str(words)?;
    out.push_str(ns.as_str())?;
    out.push_str(" ")
}

/// An `_id`, and a document.
fn write_both(id: &Value, document: &Doc, out: &mut String) -> Mem<()>
    ensures { OnOk result (string_bytes out.new ≡ string_bytes out.old
        ++ (printed (tree_of id.now) ++ codes " " ++ printed (tree.document document.now))) }
{
    write_value(id, out)?;
    out.push_str(" ")?;
    write_document(document, out)
}

/// Writes the line that says where to resume.
pub fn set_resume(token: OpTime, text: &mut String) -> Mem<()>
    ensures { OnOk result (string_bytes text.new ≡ resume_text token) }
{
    text.clear();
    text.push_str("resume ")?;
    write_token(token, text)?;
    text.push_str("\n")
}

/// The line of a refusal.
pub fn refusal_line(why: WatchRefusal) -> &'static str
    ensures { result.now ≡ refusal_text why }
{
    match why {
        WatchRefusal::UnknownToken => "watch refused 1 UnknownToken\n",
        WatchRefusal::NodeDown => "watch refused 2 NodeDown\n",
        WatchRefusal::NoSuchNode => "watch refused 3 NoSuchNode\n",
    }
}
