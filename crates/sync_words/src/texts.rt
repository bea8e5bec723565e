ghost use Rattle.std.specs.Prelude.{◌≡◌, OnOk, string_bytes};
ghost use Rattle.sync_words.specs.Texts.{refusal_text, synced_text};

use crate::SyncRefusal;
use bson_doc::{Doc, Mem, Text};
use rs_optime::OpTime;
use transcript::{write_documents, write_number, write_optime};

/// Writes into `text`, in place of what was there, with how many entries and which documents the new member
/// of this number begins, and the optime of its last entry. If memory runs out, `text` is of no use.
pub fn set_synced(
    number: u32,
    at: OpTime,
    entries: u64,
    documents: &[(Text, Doc)],
    text: &mut String,
) -> Mem<()>
    ensures { OnOk result (string_bytes text.new ≡ synced_text number at entries documents.now) }
{
    text.clear();
    text.push_str("synced n")?;
    write_number(u64::from(number), text)?;
    text.push_str(" to ")?;
    write_optime(at, text)?;
    text.push_str(" entries ")?;
    write_number(entries, text)?;
    text.push_str(" ")?;
    write_documents(documents, text)?;
    text.push_str("\n")
}

/// The line of a refusal.
pub(crate) fn refusal_line(why: SyncRefusal) -> &'static str
    ensures { result.now ≡ refusal_text why }
{
    match why {
        SyncRefusal::NoSuchNode => "sync refused 1 NoSuchNode\n",
        SyncRefusal::NoNumberLeft => "sync refused 2 NoNumberLeft\n",
        SyncRefusal::NodeDown => "sync refused 3 NodeDown\n",
        SyncRefusal::NothingCommitted => "sync refused 4 NothingCommitted\n",
    }
}
