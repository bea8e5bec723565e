// The state that the records of a file add up to.
ghost use Rattle.std.specs.Prelude.{◌≡◌, List, All, map, IfOk, OnOk, unwrap_or};
ghost use Rattle.std.specs.FinMap as maps;
ghost use Rattle.entry_bytes.specs.Optimes.{optime_bytes};
ghost use Rattle.rs_optime.specs.declared.optime.OpTime.{OpTime as AnOpTime};
ghost use Rattle.record_file.specs.Records.{lists};
ghost use Rattle.record_file.specs.Turn.{StandInTurn};
ghost use Rattle.checkpoint_store.specs.Checkpoint.{last_whole, nothing_yet, with_documents, with_more, with_record};
ghost use Rattle.checkpoint_store.specs.Layout.{Record as ARecord, Saved, documents_bytes, record_bytes, saved_bytes};
ghost use Rattle.checkpoint_store.specs.Spelled.{AreSaved, IsOptime, IsRecord, IsSaved, IsSpelled};
ghost use Rattle.checkpoint_store.specs.Folded.{so_far};

use crate::begun::Begun;
use crate::marked::last_in;
use crate::numbers::u32_of;
use crate::reading::{optime_of, saved_of};
use crate::{DocumentMap, Stable};
use rs_optime::{Mem, OpTime};
use std::alloc::Global;

// The last whole checkpoint of the records so far, and the one that was begun after it.
#[derive(Drop)]
struct Fold {
    whole: Stable,
    begun: Option<Begun>,
}

impl Fold {
    fn new(alloc: Global) -> Self
        ensures { so_far result ≡ nothing_yet }
    {
        let whole = Stable {
            at: OpTime::ZERO,
            documents: DocumentMap::new(alloc),
        };
        Fold { whole, begun: None }
    }

    // With the record of these bytes.
    fn with(self, alloc: Global, bytes: &[u8]) -> Mem<Fold>
        requires { (item : ARecord) × IsSpelled item bytes.now }
        ensures { IfOk result (λ fold. (item : ARecord) → IsSpelled item bytes.now
            → so_far fold ≡ with_record (so_far self) item) }
    {
        let Fold { whole, begun } = self;
        let rest = &bytes[1..];
        match bytes[0] {
            1 => Ok(Fold {
                whole,
                begun: Some(begin(alloc, rest)),
            }),
            2 => Ok(Fold {
                whole,
                begun: more(alloc, begun, rest)?,
            }),
            _ => Ok(Fold {
                whole: ended(begun, whole)?,
                begun: None,
            }),
        }
    }

    fn whole(self) -> Stable
        ensures { result ≡ (so_far self).whole }
    {
        let Fold {
            whole,
            begun: _begun,
        } = self;
        whole
    }
}

// The checkpoint that begins here.
fn begin(alloc: Global, bytes: &[u8]) -> Begun
    requires { (at : AnOpTime) × IsOptime at × (bytes.now ≡ optime_bytes at) }
    ensures { (at : AnOpTime) → IsOptime at → bytes.now ≡ optime_bytes at
        → result ≡ record { at = at; documents = maps.empty } }
{
    Begun::new(alloc, optime_of(bytes))
}

// The checkpoint that was begun and ends here, or the last whole one where none was begun.
fn ended(begun: Option<Begun>, whole: Stable) -> Mem<Stable>
    ensures { IfOk result (λ stable. stable ≡ unwrap_or begun whole) }
{
    match begun {
        Some(begun) => begun.ended(),
        None => Ok(whole),
    }
}

// A checkpoint that was begun, with the documents of these bytes.
fn more(alloc: Global, begun: Option<Begun>, bytes: &[u8]) -> Mem<Option<Begun>>
    requires { (documents : List Saved) × AreSaved documents × (bytes.now ≡ documents_bytes documents) }
    ensures { IfOk result (λ after.
        (documents : List Saved) → AreSaved documents → bytes.now ≡ documents_bytes documents
        → after ≡ with_more begun documents) }
{
    let Some(begun) = begun else {
        return Ok(None);
    };
    let mut begun = begun;
    add_documents(alloc, &mut begun, bytes)?;
    Ok(Some(begun))
}

fn add_documents(alloc: Global, begun: &mut Begun, bytes: &[u8]) -> Mem<()>
    requires { (more : List Saved) × AreSaved more × (bytes.now ≡ documents_bytes more) }
    ensures { OnOk result ((more : List Saved) → AreSaved more → bytes.now ≡ documents_bytes more
        → begun.new ≡ record { at = begun.old.at; documents = with_documents begun.old.documents more }) }
{
    let (count, rest) = u32_of(bytes);
    add_each(alloc, begun, count, rest)
}

fn add_each(alloc: Global, begun: &mut Begun, count: u32, bytes: &[u8]) -> Mem<()>
    requires { (more : List Saved) × StandInTurn IsSaved saved_bytes count more bytes.now }
    ensures { OnOk result ((more : List Saved) → StandInTurn IsSaved saved_bytes count more bytes.now
        → begun.new ≡ record { at = begun.old.at; documents = with_documents begun.old.documents more }) }
{
    let mut rest = bytes;
    for _ in 0..count {
        let ((place, document), later) = saved_of(alloc, rest)?;
        begun.insert(place, document)?;
        rest = later;
    }
    Ok(())
}

// The last whole checkpoint among the records in these bytes. What is before it and after it is not read.
pub(crate) fn stable_of(alloc: Global, pieces: &[Vec<u8>]) -> Mem<Stable>
    requires { (records : List ARecord) × All IsRecord records
        × (lists pieces.now ≡ map record_bytes records) }
    ensures { IfOk result (λ read. (records : List ARecord) → All IsRecord records
        → lists pieces.now ≡ map record_bytes records → read ≡ last_whole records) }
{
    let last = last_in(pieces);
    read_all(alloc, &pieces[last.from..last.to])
}

// The state that the records in these bytes add up to.
fn read_all(alloc: Global, pieces: &[Vec<u8>]) -> Mem<Stable>
    requires { (records : List ARecord) × All IsRecord records
        × (lists pieces.now ≡ map record_bytes records) }
    ensures { IfOk result (λ read. (records : List ARecord) → All IsRecord records
        → lists pieces.now ≡ map record_bytes records → read ≡ last_whole records) }
{
    let mut fold = Fold::new(alloc);
    for piece in pieces {
        fold = fold.with(alloc, piece)?;
    }
    Ok(fold.whole())
}
