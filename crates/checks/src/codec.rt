// Documents as another library spells them (BSON 1.1), and bytes that it refuses.
use bson_codec::{DOCUMENT, DecodeError, decode, encode};
use bson_doc::{Doc, Text, Value};
use std::alloc::Global;
use std::test::Fail;

// The bytes of a document of one field.
fn spelled(alloc: Global, name: &str, value: Value) -> Result<Vec<u8>, Fail> {
    let mut document = Doc::new(alloc);
    document.push(Text::from_str(alloc, name)?, value)?;
    Ok(encode(alloc, &document, DOCUMENT)?)
}

fn refusal(alloc: Global, bytes: &[u8]) -> Option<DecodeError> {
    decode(alloc, bytes, DOCUMENT).err()
}

#[test]
fn an_int32_is_spelled(rt: HostRuntime) -> Result<(), Fail> {
    let bytes = spelled(rt.alloc(), "_id", Value::Int32(1))?;
    assert!(rt; bytes.as_slice() == b"\x0e\0\0\0\x10_id\0\x01\0\0\0\0".as_slice());
    Ok(())
}

#[test]
fn an_int64_is_spelled(rt: HostRuntime) -> Result<(), Fail> {
    let bytes = spelled(rt.alloc(), "n", Value::Int64(5))?;
    assert!(rt; bytes.as_slice() == b"\x10\0\0\0\x12n\0\x05\0\0\0\0\0\0\0\0".as_slice());
    Ok(())
}

#[test]
fn a_string_is_spelled(rt: HostRuntime) -> Result<(), Fail> {
    let alloc = rt.alloc();
    let bytes = spelled(alloc, "s", Value::Text(Text::from_str(alloc, "hi")?))?;
    assert!(rt; bytes.as_slice() == b"\x0f\0\0\0\x02s\0\x03\0\0\0hi\0\0".as_slice());
    Ok(())
}

#[test]
fn an_empty_document_is_read(rt: HostRuntime) -> Result<(), Fail> {
    let document = decode(rt.alloc(), b"\x05\0\0\0\0", DOCUMENT)?;
    assert_eq!(rt; document.len(), 0);
    Ok(())
}

#[test]
fn other_bytes_are_refused(rt: HostRuntime) -> Result<(), Fail> {
    let alloc = rt.alloc();
    assert_eq!(rt; refusal(alloc, b"\x05\0\0"), Some(DecodeError::Short));
    assert_eq!(rt; refusal(alloc, b"\x04\0\0\0\0"), Some(DecodeError::Length));
    assert_eq!(rt;
        refusal(alloc, b"\x10\0\0\0\x01a\0\0\0\0\0\0\0\0\0\0"),
        Some(DecodeError::Kind(1))
    );
    assert_eq!(rt;
        refusal(alloc, b"\x05\0\0\0\0\0"),
        Some(DecodeError::Trailing)
    );
    Ok(())
}

/// The bytes of nested documents, this many in all.
fn nested(alloc: Global, levels: u32) -> Result<Vec<u8>, Fail> {
    let mut length = 5_u32;
    let mut bytes = Vec::from_slice(alloc, b"\x05\0\0\0\0")?;
    for _ in 1..levels {
        length = length.saturating_add(8);
        let mut outer = Vec::from_slice(alloc, length.to_le_bytes().as_slice())?;
        outer.extend_from_slice(b"\x03a\0")?;
        outer.extend_from_slice(bytes.as_slice())?;
        outer.push(0)?;
        bytes = outer;
    }
    Ok(bytes)
}

#[test]
fn a_document_has_a_hundred_levels(rt: HostRuntime) -> Result<(), Fail> {
    let alloc = rt.alloc();
    assert_eq!(rt; refusal(alloc, &nested(alloc, 100)?), None);
    assert_eq!(rt;
        refusal(alloc, &nested(alloc, 101)?),
        Some(DecodeError::TooDeep)
    );
    Ok(())
}

/// A document with a value of every kind, with its bytes by the standard.
const EVERY_KIND: &[u8] =
    b"}\0\0\0\x10_id\0\x01\0\0\0\x12n\0\x05\0\0\0\0\0\0\0\x02s\0\x03\0\0\0hi\0\
    \x03d\0\x0c\0\0\0\x10x\0\x02\0\0\0\0\x04a\0\x11\0\0\0\x0a0\0\x021\0\x02\0\0\0y\0\0\
    \x05b\0\x02\0\0\0\0\x0a\xff\x07i\0\0\x01\x02\x03\x04\x05\x06\x07\x08\x09\x0a\x0b\x08t\0\x01\
    \x09w\0\xff\xff\xff\xff\xff\xff\xff\xff\x0az\0\x11ts\0\x03\0\0\0\x07\0\0\0\0";

/// The shortest prefix of the bytes that is taken as a document, or refused for another reason than being too
/// short.
fn first_not_short(alloc: Global, bytes: &[u8]) -> usize {
    (0..bytes.len())
        .find(|len| refusal(alloc, &bytes[..*len]) != Some(DecodeError::Short))
        .unwrap_or(bytes.len())
}

#[test]
fn each_cut_of_a_document_is_too_short(rt: HostRuntime) -> Result<(), Fail> {
    let alloc = rt.alloc();
    assert_eq!(rt; first_not_short(alloc, EVERY_KIND), 125);
    assert_eq!(rt; decode(alloc, EVERY_KIND, DOCUMENT)?.len(), 11);
    Ok(())
}
