// The words of a write.
ghost use Rattle.std.specs.Option.{option_copied};
ghost use Rattle.script_words.specs.Gives.{Gives};
ghost use Rattle.script_words.specs.Commands.{insert_at, replace_at, update_at, delete_at, write_at};

use crate::rule::LineError;
use crate::values::{after_space, last_document, last_value, text, value};
use crate::verb::WriteKind;
use crate::words::{Left, collection};
use bson_doc::Text;
use doc_update::WriteOp;
use std::alloc::Global;

/// The words of a write of this kind.
pub fn write(alloc: Global, kind: WriteKind, left: Left<'_>) -> Result<WriteOp, LineError>
    ensures { Gives (λ op. op) result (write_at kind (option_copied left.entry)) }
{
    match kind {
        WriteKind::Insert => insert(alloc, left),
        WriteKind::Replace => replace(alloc, left),
        WriteKind::Update => update(alloc, left),
        WriteKind::Delete => delete(alloc, left),
    }
}

/// `COLLECTION DOCUMENT`
#[tactic(auto, unfolding(crate::specs::Commands::insert_at))]
fn insert(alloc: Global, left: Left<'_>) -> Result<WriteOp, LineError>
    ensures { Gives (λ op. op) result (insert_at (option_copied left.entry)) }
{
    let (ns, left) = collection(left)?;
    let doc = last_document(alloc, text(left)?)?;
    Ok(WriteOp::Insert {
        ns: Text::from_str(alloc, ns)?,
        doc,
    })
}

/// `COLLECTION ID`
#[tactic(auto, unfolding(crate::specs::Commands::delete_at))]
fn delete(alloc: Global, left: Left<'_>) -> Result<WriteOp, LineError>
    ensures { Gives (λ op. op) result (delete_at (option_copied left.entry)) }
{
    let (ns, left) = collection(left)?;
    let id = last_value(alloc, text(left)?)?;
    Ok(WriteOp::Delete {
        ns: Text::from_str(alloc, ns)?,
        id,
    })
}

/// `COLLECTION ID DOCUMENT`
#[tactic(auto, unfolding(crate::specs::Commands::replace_at))]
fn replace(alloc: Global, left: Left<'_>) -> Result<WriteOp, LineError>
    ensures { Gives (λ op. op) result (replace_at (option_copied left.entry)) }
{
    let (ns, left) = collection(left)?;
    let (id, after) = value(alloc, text(left)?)?;
    let doc = last_document(alloc, after_space(after)?)?;
    Ok(WriteOp::Replace {
        ns: Text::from_str(alloc, ns)?,
        id,
        doc,
    })
}

/// `COLLECTION ID OPERATORS`
#[tactic(auto, unfolding(crate::specs::Commands::update_at))]
fn update(alloc: Global, left: Left<'_>) -> Result<WriteOp, LineError>
    ensures { Gives (λ op. op) result (update_at (option_copied left.entry)) }
{
    let (ns, left) = collection(left)?;
    let (id, after) = value(alloc, text(left)?)?;
    let operators = last_document(alloc, after_space(after)?)?;
    Ok(WriteOp::Update {
        ns: Text::from_str(alloc, ns)?,
        id,
        operators,
    })
}
