// A copy of the documents as of an optime: memory suffices, and it has what was copied, even after the
// original is gone.
use bson_doc::{Doc, IdKey, Text, Value};
use checkpoint_store::{DocumentMap, Stable};
use rs_optime::OpTime;
use std::alloc::Global;
use std::test::Fail;

const AT: OpTime = OpTime { term: 1, ts: 2 };

/// `{a: 5}`.
fn five(alloc: Global) -> Result<Doc, Fail> {
    let mut document = Doc::new(alloc);
    document.push(Text::from_str(alloc, "a")?, Value::Int32(5))?;
    Ok(document)
}

fn is_five(document: Option<&Doc>) -> bool {
    match document {
        Some(document) => matches!(document.get("a"), Some(Value::Int32(5))),
        None => false,
    }
}

#[test]
fn stable_documents_are_copied(rt: HostRuntime) -> Result<(), Fail> {
    let alloc = rt.alloc();
    let mut documents = DocumentMap::new(alloc);
    let place = (Text::from_str(alloc, "t")?, IdKey::Number(5));
    documents.insert(place, five(alloc)?)?;
    let stable = Stable { at: AT, documents };
    let copy = stable.copy()?;
    drop(stable);
    assert!(rt; copy.at == AT);
    let place = (Text::from_str(alloc, "t")?, IdKey::Number(5));
    assert!(rt; is_five(copy.documents.get(&place)));
    Ok(())
}
