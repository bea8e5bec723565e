// What is seen at a node.
ghost use Rattle.std.specs.Prelude.{◌≡◌, true, IfOk};
ghost use Rattle.std.specs.Option.{option_map};
ghost use Rattle.std.specs.Ordering.{eq_by_cmp};
ghost use Rattle.bson_doc.specs.Key.{key_of as key_in};
ghost use Rattle.bson_doc.specs.Place.{place_cmp};
ghost use Rattle.bson_doc.specs.View.{tree_of};
ghost use Rattle.oplog_entry.specs.Step.{is_at, place_in, place_of};
ghost use Rattle.oplog_entry.specs.declared.entry.Entry.{Entry as LoggedEntry};
ghost use Rattle.set_model.specs.Limits.{is_within};
ghost use Rattle.set_model.specs.Node.{Node as Seen};
ghost use Rattle.checker_node.specs.Sound.{IsSound};
ghost use Rattle.explore_words.specs.Fits.{is_within_sight};
ghost use Rattle.question_laws.specs.Meeting.{begins, last_of_document, last_of_key};
ghost use Rattle.explore_steps.specs.Causes.{is_met_at, outcome_at, own, shows_at};

use crate::wanting::{begins, reply_line};
use bson_doc::{IdKey, KeyError, Mem, Text, Value};
use checker_machine::act;
use checker_node::Node;
use explore_words::{Look, Sight};
use oplog_entry::{Entry, Op};
use rs_optime::OpTime;
use set_model::{Command, Target};
use std::alloc::{AllocError, Global};

/// Whether a look is met at a node of a set of so many.
pub fn is_look_met(alloc: Global, nodes: u32, node: &Node, look: &Look) -> Mem<bool>
    requires sound { IsSound node.now }
    requires within { is_within_sight look.now.sight ≡ true }
    ensures { IfOk result (λ met. met ≡ is_met_at nodes node.now look.now) }
{
    match shown_by(0, node.entries(), &look.sight)? {
        Some(command) => is_shown(alloc, nodes, node, &command, &look.text),
        None => Ok(false),
    }
}

/// Whether the reply of a node to a command begins with a text.
fn is_shown(alloc: Global, nodes: u32, node: &Node, command: &Command, text: &Text) -> Mem<bool>
    requires sound { IsSound node.now }
    requires within { is_within command.now ≡ true }
    ensures { IfOk result (λ shown.
        shown ≡ begins (outcome_at nodes (own command.now) node.now).reply text.now) }
{
    let mut node = node.copy()?;
    does_show(alloc, nodes, &mut node, command, text)
}

fn does_show(
    alloc: Global,
    nodes: u32,
    node: &mut Node,
    command: &Command,
    text: &Text,
) -> Mem<bool>
    requires sound { IsSound node.old }
    requires within { is_within command.now ≡ true }
    ensures { IfOk result (λ shown.
        shown ≡ begins (outcome_at nodes (own command.now) node.old).reply text.now) }
{
    let mut failed = None;
    let answer = act(node, nodes, 0, false, command, &mut failed)?;
    let line = reply_line(alloc, &answer.reply)?;
    Ok(begins(&line, text))
}

/// The command that shows what is to be seen at the node of this number, which has these entries; none where
/// there is nothing to be shown.
pub fn shown_by(node: u32, entries: &[Entry], sight: &Sight) -> Mem<Option<Command>>
    ensures { IfOk result (λ command.
        (own : Seen) → own.log ≡ entries.now → command ≡ shows_at node own sight.now) }
{
    Ok(match sight {
        Sight::Read {
            level,
            collection,
            id,
        } => Some(Command::Read {
            node,
            level: *level,
            collection: collection.copy()?,
            id: id.copy()?,
        }),
        Sight::Dump(level) => Some(Command::Dump {
            node,
            level: *level,
        }),
        Sight::Log => Some(Command::Log { node }),
        Sight::State => Some(Command::State { node }),
        Sight::Rolled => Some(Command::Rolled { node }),
        Sight::Ack { target, concern } => Some(Command::Ack {
            node,
            target: *target,
            concern: *concern,
        }),
        Sight::AckLast {
            collection,
            id,
            concern,
        } => match last_of(entries, collection, id)? {
            Some(at) => Some(Command::Ack {
                node,
                target: Target::At(at),
                concern: *concern,
            }),
            None => None,
        },
    })
}

/// The optime of the last entry that wrote a document.
fn last_of(entries: &[Entry], collection: &Text, id: &Value) -> Mem<Option<OpTime>>
    ensures { IfOk result (λ at. at ≡ option_map (λ (entry : LoggedEntry). entry.optime)
        (last_of_key entries.now collection.now (key_in (tree_of id.now)))) }
{
    match key_of(id)? {
        Some(key) => last_of_document(entries, collection, &key),
        None => Ok(None),
    }
}

fn last_of_document(entries: &[Entry], collection: &Text, key: &IdKey) -> Mem<Option<OpTime>>
    ensures { IfOk result (λ at. at ≡ option_map (λ (entry : LoggedEntry). entry.optime)
        (last_of_document entries.now (collection.now, key.now))) }
{
    for place in (0..entries.len()).rev() {
        let entry = &entries[place];
        if wrote(entry.op.or(&Op::Noop), collection, key)? {
            return Ok(Some(entry.optime));
        }
    }
    Ok(None)
}

/// Whether an op wrote the document of a key.
fn wrote(op: &Op, collection: &Text, key: &IdKey) -> Mem<bool>
    ensures { IfOk result (λ wrote. wrote ≡ is_at (place_of op.now) (collection.now, key.now)) }
{
    match op {
        Op::Insert { ns, o } => match o.get("_id") {
            Some(id) => is_document(ns, id, collection, key),
            None => Ok(false),
        },
        Op::Replace { ns, id, .. } | Op::Fields { ns, id, .. } | Op::Delete { ns, id } => {
            is_document(ns, id, collection, key)
        }
        Op::Noop | Op::Note => Ok(false),
    }
}

/// Whether an `_id` of a collection names the document of a key.
fn is_document(ns: &Text, id: &Value, collection: &Text, key: &IdKey) -> Mem<bool>
    ensures { IfOk result (λ same.
        same ≡ is_at (place_in ns.now (key_in (tree_of id.now))) (collection.now, key.now)) }
{
    match key_of(id)? {
        Some(own) => Ok(is_place(ns, &own, collection, key)),
        None => Ok(false),
    }
}

fn is_place(ns: &Text, own: &IdKey, collection: &Text, key: &IdKey) -> bool
    ensures { result ≡ eq_by_cmp place_cmp (ns.now, own.now) (collection.now, key.now) }
{
    ns.cmp(collection).then(own.cmp(key)).is_eq()
}

fn key_of(id: &Value) -> Mem<Option<IdKey>>
    ensures { IfOk result (λ key. key ≡ key_in (tree_of id.now)) }
{
    match IdKey::of(id) {
        Ok(key) => Ok(Some(key)),
        Err(KeyError::Kind(_)) => Ok(None),
        Err(KeyError::Memory) => Err(AllocError),
    }
}
