// Entries as another library spells them (BSON 1.1).
use entry_bytes::{EntryError, of_bytes, to_bytes};
use oplog_entry::Session;
use std::alloc::Global;
use std::test::Fail;

const FIELDS: &[u8] =
    b"\x80\0\0\0\x11ts\0\x02\0\0\0\0\0\0\0\x12t\0\x01\0\0\0\0\0\0\0\x10v\0\x02\0\0\0\x02op\0\x02\0\0\0u\0\x02ns\0\x02\0\0\0t\0\x03o\x004\0\0\0\x10$v\0\x01\0\0\0\x03$set\0\x0c\0\0\0\x10a\0\x02\0\0\0\0\x03$unset\0\x0d\0\0\0\x08b\0\x01\x08c\0\x01\0\0\x03o2\0\x0e\0\0\0\x10_id\0\x05\0\0\0\0\0";

const DELETE: &[u8] =
    b"H\0\0\0\x11ts\0\x02\0\0\0\0\0\0\0\x12t\0\x01\0\0\0\0\0\0\0\x10v\0\x02\0\0\0\x02op\0\x02\0\0\0d\0\x02ns\0\x02\0\0\0t\0\x03o\0\x0e\0\0\0\x10_id\0\x05\0\0\0\0\0";

// The same with a length that leaves its last byte out.
const TOO_LONG: &[u8] =
    b"G\0\0\0\x11ts\0\x02\0\0\0\0\0\0\0\x12t\0\x01\0\0\0\0\0\0\0\x10v\0\x02\0\0\0\x02op\0\x02\0\0\0d\0\x02ns\0\x02\0\0\0t\0\x03o\0\x0e\0\0\0\x10_id\0\x05\0\0\0\0\0";

// An insert of a document that does not begin with an `_id`.
const NO_ID: &[u8] =
    b"F\0\0\0\x11ts\0\x02\0\0\0\0\0\0\0\x12t\0\x01\0\0\0\0\0\0\0\x10v\0\x02\0\0\0\x02op\0\x02\0\0\0i\0\x02ns\0\x02\0\0\0t\0\x03o\0\x0c\0\0\0\x10a\0\x01\0\0\0\0\0";

const NOTE: &[u8] =
    b"L\0\0\0\x11ts\0\x02\0\0\0\0\0\0\0\x12t\0\x01\0\0\0\0\0\0\0\x10v\0\x02\0\0\0\x02op\0\x02\0\0\0n\0\x02ns\0\x01\0\0\0\0\x03o\0\x13\0\0\0\x02msg\0\x05\0\0\0note\0\0\0";

// An insert of the session 7, numbered 1.
const INSERT: &[u8] =
    b"i\0\0\0\x11ts\0\x02\0\0\0\0\0\0\0\x12t\0\x01\0\0\0\0\0\0\0\x10v\0\x02\0\0\0\x02op\0\x02\0\0\0i\0\x02ns\0\x02\0\0\0t\0\x03o\0\x0e\0\0\0\x10_id\0\x05\0\0\0\0\x12lsid\0\x07\0\0\0\0\0\0\0\x12txnNumber\0\x01\0\0\0\0\0\0\0\0";

// A replacement of the session 4,294,967,295, numbered 3.
const REPLACEMENT: &[u8] =
    b"\x82\0\0\0\x11ts\0\x02\0\0\0\0\0\0\0\x12t\0\x01\0\0\0\0\0\0\0\x10v\0\x02\0\0\0\x02op\0\x02\0\0\0u\0\x02ns\0\x02\0\0\0t\0\x03o\0\x15\0\0\0\x10_id\0\x05\0\0\0\x10a\0\x01\0\0\0\0\x03o2\0\x0e\0\0\0\x10_id\0\x05\0\0\0\0\x12lsid\0\xff\xff\xff\xff\0\0\0\0\x12txnNumber\0\x03\0\0\0\0\0\0\0\0";

// The same, with an `_id` in the document other than that of the one replaced.
const OF_ANOTHER: &[u8] =
    b"\x82\0\0\0\x11ts\0\x02\0\0\0\0\0\0\0\x12t\0\x01\0\0\0\0\0\0\0\x10v\0\x02\0\0\0\x02op\0\x02\0\0\0u\0\x02ns\0\x02\0\0\0t\0\x03o\0\x15\0\0\0\x10_id\0\x05\0\0\0\x10a\0\x01\0\0\0\0\x03o2\0\x0e\0\0\0\x10_id\0\x06\0\0\0\0\x12lsid\0\xff\xff\xff\xff\0\0\0\0\x12txnNumber\0\x03\0\0\0\0\0\0\0\0";

// A note with a session.
const NOTE_OF_SESSION: &[u8] =
    b"m\0\0\0\x11ts\0\x02\0\0\0\0\0\0\0\x12t\0\x01\0\0\0\0\0\0\0\x10v\0\x02\0\0\0\x02op\0\x02\0\0\0n\0\x02ns\0\x01\0\0\0\0\x03o\0\x13\0\0\0\x02msg\0\x05\0\0\0note\0\0\x12lsid\0\x07\0\0\0\0\0\0\0\x12txnNumber\0\x01\0\0\0\0\0\0\0\0";

// The bytes of the entry that is read from these bytes.
fn again(alloc: Global, bytes: &[u8]) -> Result<Vec<u8>, Fail> {
    let entry = of_bytes(alloc, bytes)?;
    Ok(to_bytes(alloc, &entry)?)
}

#[test]
fn a_deletion_is_read_and_written(rt: HostRuntime) -> Result<(), Fail> {
    let written = again(rt.alloc(), DELETE)?;
    assert!(rt; written.as_slice() == DELETE);
    Ok(())
}

#[test]
fn changed_fields_are_read_and_written(rt: HostRuntime) -> Result<(), Fail> {
    let written = again(rt.alloc(), FIELDS)?;
    assert!(rt; written.as_slice() == FIELDS);
    Ok(())
}

#[test]
fn an_insert_without_an_id_is_refused(rt: HostRuntime) -> Result<(), Fail> {
    assert_eq!(rt; of_bytes(rt.alloc(), NO_ID).err(), Some(EntryError::Shape));
    Ok(())
}

#[test]
fn an_entry_with_a_byte_after_it_is_refused(rt: HostRuntime) -> Result<(), Fail> {
    assert!(rt; of_bytes(rt.alloc(), TOO_LONG).is_err());
    Ok(())
}

#[test]
fn a_replacement_of_another_document_is_refused(rt: HostRuntime) -> Result<(), Fail> {
    assert_eq!(rt;
        of_bytes(rt.alloc(), OF_ANOTHER).err(),
        Some(EntryError::Shape)
    );
    Ok(())
}

#[test]
fn a_note_is_read_and_written(rt: HostRuntime) -> Result<(), Fail> {
    let written = again(rt.alloc(), NOTE)?;
    assert!(rt; written.as_slice() == NOTE);
    Ok(())
}

#[test]
fn an_insert_of_a_session_is_read_and_written(rt: HostRuntime) -> Result<(), Fail> {
    let written = again(rt.alloc(), INSERT)?;
    assert!(rt; written.as_slice() == INSERT);
    Ok(())
}

#[test]
fn a_replacement_of_a_session_is_read_and_written(rt: HostRuntime) -> Result<(), Fail> {
    let written = again(rt.alloc(), REPLACEMENT)?;
    assert!(rt; written.as_slice() == REPLACEMENT);
    Ok(())
}

#[test]
fn the_session_of_an_entry_is_read(rt: HostRuntime) -> Result<(), Fail> {
    let entry = of_bytes(rt.alloc(), INSERT)?;
    assert_eq!(rt; entry.session, Some(Session { id: 7, number: 1 }));
    Ok(())
}

#[test]
fn a_note_of_a_session_is_refused(rt: HostRuntime) -> Result<(), Fail> {
    assert_eq!(rt;
        of_bytes(rt.alloc(), NOTE_OF_SESSION).err(),
        Some(EntryError::Shape)
    );
    Ok(())
}
