ghost use Rattle.std.specs.Prelude.{◌≡◌, IfOk, OnOk, OnErr};
ghost use Rattle.std.specs.Option.{option_copied};
ghost use Rattle.oplog_entry.specs.Docs.{applied};
ghost use Rattle.oplog_entry.specs.Lawful.{IsLawful};
ghost use Rattle.oplog_entry.specs.Step.{document_after};
ghost use Rattle.doc_fold.specs.Map.{documents_of};

use bson_doc::{Doc, IdKey, Mem, Text};
use oplog_entry::{Entry, Op, with_changes};
use std::alloc::Global;
use std::collections::BTreeMap;

/// The document that an op touches, after the op, where `before` is what was there. None where the document
/// is deleted, or where there was none whose fields could change. A no-op and a note leave what was there.
pub fn document_after(alloc: Global, op: &Op, before: Option<&Doc>) -> Mem<Option<Doc>>
    ensures after { IfOk result (λ after. after ≡ document_after op.now (option_copied before.entry)) }

    // Applying it twice is applying it once.
    ensures twice { IfOk result (λ after. document_after op.now after ≡ after) }
{
    Ok(match (op, before) {
        (Op::Insert { o, .. } | Op::Replace { o, .. }, _) => Some(o.copy()?),
        (Op::Fields { sets, unsets, .. }, Some(document)) => Some(with_changes(
            alloc, document, sets, unsets,
        )?),
        (Op::Noop | Op::Note, Some(document)) => Some(document.copy()?),
        (Op::Fields { .. } | Op::Noop | Op::Note, None) | (Op::Delete { .. }, _) => None,
    })
}

/// Applies one entry. Out of memory leaves the documents as they were.
pub fn apply_entry(alloc: Global, docs: &mut BTreeMap<(Text, IdKey), Doc>, entry: &Entry) -> Mem<()>
    requires { IsLawful entry.now }
    ensures ok { OnOk result
        (documents_of docs.new.entries ≡ applied (documents_of docs.old.entries) entry.now) }

    // Applying it twice is applying it once.
    ensures twice { OnOk result
        (applied (documents_of docs.new.entries) entry.now ≡ documents_of docs.new.entries) }
    ensures err { OnErr result (docs.new.entries ≡ docs.old.entries) }
{
    let Some(place) = entry.key()? else {
        return Ok(());
    };
    match document_after(alloc, entry.op.or(&Op::Noop), docs.get(&place))? {
        Some(document) => {
            docs.insert(place, document)?;
        }
        None => {
            docs.remove(&place);
        }
    }
    Ok(())
}
