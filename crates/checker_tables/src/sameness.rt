// Whether entries are the same, and whether two tables hold the same. For tables one way is enough: who keeps
// each node once keeps twice what isn't found to be the same.
ghost use Rattle.std.specs.Prelude.{◌≡◌, ◌↔◌, IsTrue};
ghost use Rattle.std.specs.Option.{option_copied};
ghost use Rattle.repl_msg.specs.Kept.{kept};
ghost use Rattle.checker_tables.specs.Journal.{ComesTo};

use crate::doc_log::DocLog;
use crate::journal::Journal;
use bson_doc::{Doc, Items, Text, Value};
use member_config::Config;
use oplog_entry::{Entry, Op, SharedOp};
use set_model::Writer;

/// Whether two entries are the same.
pub fn same_entry(one: &Entry, other: &Entry) -> bool
    ensures { IsTrue result ↔ one.now ≡ other.now }
{
    one.optime == other.optime && one.session == other.session && same_shared(&one.op, &other.op)
}

/// Whether two lists of entries are the same.
pub fn same_entries(one: &[Entry], other: &[Entry]) -> bool
    ensures { IsTrue result ↔ one.now ≡ other.now }
{
    if one.len() != other.len() {
        return false;
    }
    for place in 0..one.len() {
        if !same_entry(&one[place], &other[place]) {
            return false;
        }
    }
    true
}

fn same_shared(one: &SharedOp, other: &SharedOp) -> bool
    ensures { IsTrue result ↔ one.now ≡ other.now }
{
    same_op(one.or(&Op::Noop), other.or(&Op::Noop))
}

fn same_op(one: &Op, other: &Op) -> bool
    ensures { IsTrue result ↔ one.now ≡ other.now }
{
    match (one, other) {
        (Op::Insert { ns, o }, Op::Insert { ns: ns_2, o: o_2 }) => {
            same_text(ns, ns_2) && same_document(o, o_2)
        }
        (
            Op::Replace { ns, id, o },
            Op::Replace {
                ns: ns_2,
                id: id_2,
                o: o_2,
            },
        ) => same_key(ns, id, ns_2, id_2) && same_document(o, o_2),
        (
            Op::Fields {
                ns,
                id,
                sets,
                unsets,
            },
            Op::Fields {
                ns: ns_2,
                id: id_2,
                sets: sets_2,
                unsets: unsets_2,
            },
        ) => same_key(ns, id, ns_2, id_2) && same_change(sets, unsets, sets_2, unsets_2),
        (Op::Delete { ns, id }, Op::Delete { ns: ns_2, id: id_2 }) => same_key(ns, id, ns_2, id_2),
        (Op::Noop, Op::Noop) => true,
        (Op::Note, Op::Note) => true,
        _ => false,
    }
}

/// The same collection and the same `_id`.
fn same_key(one: &Text, id: &Value, other: &Text, other_id: &Value) -> bool
    ensures { IsTrue result ↔ (one.now ≡ other.now) × (id.now ≡ other_id.now) }
{
    same_text(one, other) && same_value(id, other_id)
}

/// The same fields set, and the same ones removed.
fn same_change(sets: &Doc, unsets: &Items, other_sets: &Doc, other_unsets: &Items) -> bool
    ensures { IsTrue result ↔ (sets.now ≡ other_sets.now) × (unsets.now ≡ other_unsets.now) }
{
    same_document(sets, other_sets) && same_items(unsets, other_unsets)
}

fn same_text(one: &Text, other: &Text) -> bool
    ensures { IsTrue result ↔ one.now ≡ other.now }
{
    one == other
}

fn same_value(one: &Value, other: &Value) -> bool
    ensures { IsTrue result ↔ one.now ≡ other.now }
{
    one == other
}

fn same_document(one: &Doc, other: &Doc) -> bool
    ensures { IsTrue result ↔ one.now ≡ other.now }
{
    one == other
}

fn same_items(one: &Items, other: &Items) -> bool
    ensures { IsTrue result ↔ one.now ≡ other.now }
{
    one == other
}

/// Whether two writers are the same.
pub(crate) fn same_writer(one: &Writer, other: &Writer) -> bool
    ensures { IsTrue result → one.now ≡ other.now }
{
    match (one, other) {
        (Writer::Open { at, op }, Writer::Open { at: at_2, op: op_2 }) => {
            at == at_2 && same_shared(op, op_2)
        }
        (Writer::Done(at), Writer::Done(at_2)) => at == at_2,
        (Writer::Lost(term), Writer::Lost(term_2)) => term == term_2,
        _ => false,
    }
}

impl DocLog {
    /// Whether this log is the same as another.
    pub fn same(&self, other: &DocLog) -> bool
        ensures { IsTrue result → self.now ≡ other.now }
    {
        same_entries(self.log().as_slice(), other.log().as_slice())
    }
}

impl Journal {
    /// Whether the records of this journal come to the same as those of another.
    pub fn same(&self, other: &Journal) -> bool
        ensures { IsTrue result → ComesTo other.now (kept self.now).vote (kept self.now).config
            (kept self.now).entries (kept self.now).point }
    {
        self.vote() == other.vote()
            && self.point() == other.point()
            && same_configs(self.config(), other.config())
            && same_entries(self.entries().as_slice(), other.entries().as_slice())
    }
}

fn same_configs(one: Option<&Config>, other: Option<&Config>) -> bool
    ensures { IsTrue result → option_copied one.entry ≡ option_copied other.entry }
{
    match (one, other) {
        (Some(one), Some(other)) => one.same(other),
        (None, None) => true,
        _ => false,
    }
}
