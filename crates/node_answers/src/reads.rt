// What a node shows.
ghost use Rattle.std.specs.Prelude.{◌≡◌, IfOk};
ghost use Rattle.std.specs.Option.{option_copied};
ghost use Rattle.std.specs.FinMap as maps;
ghost use Rattle.bson_doc.specs.View.{tree_of};
ghost use Rattle.oplog_entry.specs.Visible.{log_up_to};
ghost use Rattle.set_model.specs.Outcome.{replied};
ghost use Rattle.set_model.specs.Reads.{shown_documents, shown_log, read, dump, show_log, show_state};
ghost use Rattle.set_model.specs.Roles.{is_primary};
ghost use Rattle.set_model.specs.Rollback.{rolled};
ghost use Rattle.node_data.specs.NodeData.{IsReadable};
ghost use Rattle.node_answers.specs.Reading.{level_of};

use crate::listing::listed;
use bson_doc::{Doc, IdKey, KeyError, Mem, Text, Value};
use node_state::State;
use read_concern::{Level, ReadAt, snapshot};
use rs_optime::OpTime;
use set_model::{ReadLevel, Refusal, Reply, Role};
use std::alloc::AllocError;

fn concern(level: ReadLevel) -> Level
    ensures { result ≡ level_of level }
{
    match level {
        ReadLevel::Local => Level::Local,
        ReadLevel::Majority => Level::Majority,
    }
}

fn is_primary(state: &State) -> bool
    ensures { result ≡ is_primary state.now.node.role }
{
    match state.role {
        Role::Primary => true,
        Role::Secondary | Role::Candidate | Role::Draining => false,
    }
}

/// The optime at which a read shows documents.
fn shown_point(state: &State, level: ReadLevel) -> OpTime
    ensures readable { IsReadable state.now.node result }
    ensures shown { log_up_to result state.now.node.log ≡ shown_log state.now.node level }
{
    state.node_data.recall_sound();
    let applied = state.applied_point();
    match snapshot(concern(level), is_primary(state), state.commit, applied) {
        ReadAt::Latest => state.node_data.local_point(),
        ReadAt::At(at) => at,
    }
}

/// The document with a key.
pub(crate) fn read(state: &State, level: ReadLevel, collection: &Text, id: &Value) -> Mem<Reply>
    ensures { IfOk result (λ reply.
        read state.now.node level collection.now (tree_of id.now) ≡ replied reply state.now.node) }
{
    let key = match IdKey::of(id) {
        Ok(key) => key,
        Err(KeyError::Kind(_)) => return Ok(Reply::Refused(Refusal::BadIdKind)),
        Err(KeyError::Memory) => return Err(AllocError),
    };
    match shown(state, level, collection.as_str(), &key) {
        Some(document) => Ok(Reply::Found(document.copy()?)),
        None => Ok(Reply::Missing),
    }
}

fn shown<'a>(state: &'a State, level: ReadLevel, ns: &str, id: &IdKey) -> Option<&'a Doc>
    ensures { option_copied result ≡ maps.get (shown_documents state.now.node level) (ns.now, id.now) }
{
    state.node_data.read_at(ns, id, shown_point(state, level))
}

/// Lists the documents that a read shows, so that `dump` visits no others.
pub(crate) fn list_shown(state: &mut State, level: ReadLevel)
    ensures { state.new ≡ state.old }
{
    let at = shown_point(state, level);
    state.node_data.list_at(at);
}

/// All documents.
pub(crate) fn dump(state: &State, level: ReadLevel) -> Mem<Reply>
    ensures { IfOk result (λ reply. dump state.now.node level ≡ replied reply state.now.node) }
{
    Ok(Reply::Documents(listed(state.alloc, state.store(), shown_point(state, level))?))
}

/// The entries that are written.
pub(crate) fn show_log(state: &State) -> Mem<Reply>
    ensures { IfOk result (λ reply. show_log state.now.node ≡ replied reply state.now.node) }
{
    Ok(Reply::Entries(state.node_data.entries()?))
}

/// Role, term, vote, points and configuration.
pub(crate) fn show_state(state: &State) -> Reply
    ensures { show_state state.now.node ≡ replied result state.now.node }
{
    Reply::State {
        role: state.role,
        term: state.term,
        vote: state.vote,
        last: state.node_data.last(),
        durable: state.durable,
        applied: state.applied_point(),
        commit: state.commit,
        config: (state.config.term, state.config.version),
        rollback: state.rollback,
    }
}

/// The documents that the last rollback touched.
pub(crate) fn rolled(state: &State) -> Mem<Reply>
    ensures { IfOk result (λ reply. rolled state.now.node ≡ replied reply state.now.node) }
{
    Ok(Reply::Rolled(state.lost.copy()?))
}
