// A copy of what a rollback takes: memory suffices, and it has what was copied, even after the original is
// gone.
use bson_doc::{Doc, IdKey, Text, Value};
use rollback_core::LostDocument;
use std::test::Fail;

#[test]
fn a_lost_document_is_copied_with_its_place(rt: HostRuntime) -> Result<(), Fail> {
    let alloc = rt.alloc();
    let lost = LostDocument {
        ns: Text::from_str(alloc, "t")?,
        id: IdKey::Number(5),
        doc: None,
    };
    let copy = lost.copy()?;
    drop(lost);
    assert_eq!(rt; copy.ns.as_str(), "t");
    assert!(rt; matches!(copy.id, IdKey::Number(5)));
    assert!(rt; copy.doc.is_none());
    Ok(())
}

/// Whether the document is `{a: 5}`.
fn is_five(doc: &Option<Doc>) -> bool {
    match doc {
        Some(doc) => doc.len() == 1 && matches!(doc.get("a"), Some(Value::Int32(5))),
        None => false,
    }
}

#[test]
fn a_lost_document_is_copied_as_it_was(rt: HostRuntime) -> Result<(), Fail> {
    let alloc = rt.alloc();
    let mut doc = Doc::new(alloc);
    doc.push(Text::from_str(alloc, "a")?, Value::Int32(5))?;
    let lost = LostDocument {
        ns: Text::from_str(alloc, "t")?,
        id: IdKey::Number(5),
        doc: Some(doc),
    };
    let copy = lost.copy()?;
    drop(lost);
    assert!(rt; is_five(&copy.doc));
    Ok(())
}
