// A law of the layout, for readers: the function's contract is the law, and its body does nothing.
ghost use Rattle.std.specs.Prelude.{◌≡◌};
ghost use Rattle.oplog_entry.specs.Lawful.{IsLawful};
ghost use Rattle.oplog_entry.specs.declared.entry.Entry.{Entry};
ghost use Rattle.entry_bytes.specs.Layout.{document_of};

/// Two lawful entries that are written as the same document are the same entry.
pub fn documents_tell_entries()
    ensures { (one two : Entry) → IsLawful one → IsLawful two
        → document_of one ≡ document_of two → one ≡ two }
{}
