// Entries and the documents that they leave.
ghost use Rattle.std.specs.Prelude.{IfOk};
ghost use Rattle.oplog_entry.specs.Lawful.{IsLawfulOp};

use bson_doc::{Doc, IdKey, Items, Text, Value};
use doc_fold::apply_entry;
use oplog_entry::{Entry, Op, SharedOp, with_changes};
use rs_optime::OpTime;
use std::alloc::Global;
use std::collections::BTreeMap;
use std::test::Fail;

fn push(alloc: Global, document: &mut Doc, name: &str, number: i32) -> Result<(), Fail> {
    document.push(Text::from_str(alloc, name)?, Value::Int32(number))?;
    Ok(())
}

fn insert_five(alloc: Global) -> Result<Op, Fail>
    ensures { IfOk result (λ op. IsLawfulOp op) }
{
    let mut o = Doc::new(alloc);
    o.push(Text::from_str(alloc, "_id")?, Value::Int32(5))?;
    let ns = Text::from_str(alloc, "t")?;
    Ok(Op::Insert { ns, o })
}

#[test]
fn an_inserted_document_is_there(rt: HostRuntime) -> Result<(), Fail> {
    let alloc = rt.alloc();
    let op = insert_five(alloc)?;
    let optime = OpTime { term: 1, ts: 1 };
    let mut docs = BTreeMap::new(alloc);
    let op = SharedOp::new(alloc, op)?;
    let entry = Entry {
        optime,
        op,
        session: None,
    };
    apply_entry(alloc, &mut docs, &entry)?;
    let five = (Text::from_str(alloc, "t")?, IdKey::Number(5));
    assert!(rt; docs.get(&five).is_some());
    Ok(())
}

#[test]
fn a_field_is_set_in_its_place_and_another_is_unset(rt: HostRuntime) -> Result<(), Fail> {
    let alloc = rt.alloc();
    let mut document = Doc::new(alloc);
    push(alloc, &mut document, "a", 1)?;
    push(alloc, &mut document, "b", 2)?;
    let mut sets = Doc::new(alloc);
    push(alloc, &mut sets, "a", 3)?;
    let mut unsets = Items::new(alloc);
    unsets.push(Value::Text(Text::from_str(alloc, "b")?))?;
    let changed = with_changes(alloc, &document, &sets, &unsets)?;
    assert_eq!(rt; changed.len(), 1);
    assert!(rt; matches!(changed.get("a"), Some(Value::Int32(3))));
    Ok(())
}
