use bson_doc::{Doc, IdKey, Text};
use oplog_entry::Entry;
use rs_optime::OpTime;

/// What a new member begins with: what another member had at one moment.
#[derive(Drop)]
pub struct Pinned {
    /// The term of the member.
    pub term: u64,
    /// The optime of the last entry, which isn't `OpTime::ZERO`.
    pub at: OpTime,
    /// The entries of its log up to there.
    pub entries: Vec<Entry>,
    /// The documents that result from these entries, in order of collection and key.
    pub documents: Vec<Kept1>,
}

/// One document with its collection and its key.
#[derive(Drop)]
pub struct Kept1 {
    pub ns: Text,
    pub id: IdKey,
    pub doc: Doc,
}
