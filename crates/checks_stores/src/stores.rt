use bson_doc::{Bytes, Doc, IdKey, Text};
use rs_optime::OpTime;
use std::test::Fail;
use version_store::{HoldError, VersionStore, shard_of};

const FIRST: OpTime = OpTime { term: 1, ts: 1 };

const SECOND: OpTime = OpTime { term: 1, ts: 2 };

const THIRD: OpTime = OpTime { term: 2, ts: 3 };

const ALL: u32 = u32::MAX;

#[test]
fn a_place_has_its_hash(rt: HostRuntime) -> Result<(), Fail> {
    assert_eq!(rt; shard_of("t", &IdKey::Number(5), ALL), 323_702_480);
    assert_eq!(rt; shard_of("t", &IdKey::Date(5), ALL), 4_171_332_053);
    assert_eq!(rt; shard_of("t", &IdKey::Number(-1), ALL), 4_163_575_285);
    assert_eq!(rt; shard_of("t", &IdKey::Boolean(true), ALL), 3_455_912);
    assert_eq!(rt; shard_of("t", &IdKey::Boolean(true), 16), 8);
    let name = IdKey::Text(Text::from_str(rt.alloc(), "ada")?);
    assert_eq!(rt; shard_of("users", &name, 16), 4);
    let bytes = IdKey::Binary(4, Bytes::new(vec![in rt.alloc(); 1, 2]?));
    assert_eq!(rt; shard_of("t", &bytes, 16), 14);
    let id = IdKey::ObjectId([0, 1, 2, 3, 4, 5, 6, 7, 8, 9, 10, 11]);
    assert_eq!(rt; shard_of("t", &id, 7), 2);
    Ok(())
}

#[test]
fn a_document_is_put_and_read(rt: HostRuntime) -> Result<(), Fail> {
    let mut store = VersionStore::new(rt.alloc(), 16)?;
    let key = IdKey::Number(5);
    store.put(
        Text::from_str(rt.alloc(), "t")?,
        IdKey::Number(5),
        SECOND,
        Some(Doc::new(rt.alloc())),
    )?;
    assert!(rt; store.latest("t", &key).is_some());
    assert!(rt; store.latest("t", &IdKey::Number(6)).is_none());
    assert!(rt; store.latest("u", &key).is_none());
    assert!(rt; store.read_at("t", &key, FIRST).is_none());
    assert!(rt; store.read_at("t", &key, SECOND).is_some());
    assert!(rt; store.read_at("t", &key, THIRD).is_some());
    assert_eq!(rt; store.keys_at(FIRST)?.len(), 0);
    let keys = store.keys_at(SECOND)?;
    assert_eq!(rt; keys.len(), 1);
    assert!(rt; keys[0].0.as_str() == "t");
    assert!(rt; keys[0].1 == key);
    store.back_before(SECOND);
    assert!(rt; store.latest("t", &key).is_none());
    Ok(())
}

#[test]
fn one_writer_holds_a_document(rt: HostRuntime) -> Result<(), Fail> {
    let mut store = VersionStore::new(rt.alloc(), 3)?;
    let key = IdKey::Number(5);
    assert_eq!(rt; store.holder("t", &key), None);
    assert_eq!(rt; store.hold("t", &key, 7), Ok(()));
    assert_eq!(rt; store.hold("t", &key, 7), Ok(()));
    assert_eq!(rt; store.hold("t", &key, 8), Err(HoldError::Held(7)));
    assert_eq!(rt; store.hold("t", &IdKey::Date(5), 8), Ok(()));
    store.release("t", &key);
    assert_eq!(rt; store.hold("t", &key, 8), Ok(()));
    assert_eq!(rt; store.holder("t", &key), Some(8));
    store.prune(THIRD);
    assert_eq!(rt; store.holder("t", &key), Some(8));
    Ok(())
}
