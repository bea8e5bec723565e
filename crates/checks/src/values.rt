// Documents compared, changed, walked and shown in debugging; an optime's text.
use bson_doc::{Doc, Items, Mem, Text, Value};
use rs_optime::OpTime;
use std::alloc::Global;
use std::test::Fail;

// `{n: NUMBER, t: ["x"]}`
fn document(alloc: Global, number: Value) -> Result<Doc, Fail> {
    let mut items = Items::new(alloc);
    items.push(Value::Text(Text::from_str(alloc, "x")?))?;
    let mut document = Doc::new(alloc);
    document.push(Text::from_str(alloc, "n")?, number)?;
    document.push(Text::from_str(alloc, "t")?, Value::Array(items))?;
    Ok(document)
}

// The names of its fields, joined.
fn names(alloc: Global, document: &Doc) -> Mem<String> {
    let mut names = String::new(alloc);
    for (name, _) in document.iter() {
        names.push_str(name)?;
    }
    Ok(names)
}

#[test]
fn documents_are_compared_by_kind(rt: HostRuntime) -> Result<(), Fail> {
    let alloc = rt.alloc();
    let five = document(alloc, Value::Int32(5))?;
    assert!(rt; five == document(alloc, Value::Int32(5))?);
    assert!(rt; five != document(alloc, Value::Int64(5))?);
    Ok(())
}

#[test]
fn a_name_stands_once(rt: HostRuntime) -> Result<(), Fail> {
    let alloc = rt.alloc();
    let mut document = document(alloc, Value::Int32(5))?;
    let again = document.push(Text::from_str(alloc, "n")?, Value::Int32(6));
    assert!(rt; again.is_err());
    Ok(())
}

#[test]
fn a_field_is_set_in_its_place(rt: HostRuntime) -> Result<(), Fail> {
    let alloc = rt.alloc();
    let mut changed = document(alloc, Value::Int32(5))?;
    changed.set(Text::from_str(alloc, "n")?, Value::Int32(6))?;
    assert!(rt; changed == document(alloc, Value::Int32(6))?);
    Ok(())
}

#[test]
fn an_optime_is_appended(rt: HostRuntime) -> Result<(), Fail> {
    let mut text = String::from_str(rt.alloc(), "at ")?;
    let at = OpTime {
        term: 1,
        ts: (2 << 32) + 3,
    };
    at.write_text(&mut text)?;
    assert!(rt; text.as_str() == "at 1/2/3");
    Ok(())
}

#[test]
fn a_document_is_walked_and_shown(rt: HostRuntime) -> Result<(), Fail> {
    let alloc = rt.alloc();
    let document = document(alloc, Value::Int32(5))?;
    assert!(rt; names(alloc, &document)?.as_str() == "nt");
    let shown = format!(in alloc; "{document:?}")?;
    assert!(rt; shown.as_str() == "{\"n\": Int32(5), \"t\": [Text(\"x\")]}");
    Ok(())
}
