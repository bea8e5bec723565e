// The sums of `$inc`.
ghost use Rattle.std.specs.Prelude.{◌≡◌, option_map};
ghost use Rattle.bson_doc.specs.View.{tree_of};
ghost use Rattle.doc_update.specs.Increment.{integer_of, IsSum, AddsSums};

use crate::WriteRefusal;
use crate::ordered::Ordered;
use bson_doc::{Doc, Text, Value};
use oplog_entry::FieldIndex;
use std::alloc::Global;

/// The number of an integer.
fn integer(value: &Value) -> Option<i64>
    ensures { result ≡ integer_of (tree_of value.now) }
{
    match value {
        Value::Int32(number) => Some(i64::from(*number)),
        Value::Int64(number) => Some(*number),
        _ => None,
    }
}

#[derive(Drop)]
enum Sum {
    Whole(Value),
    WrongSide,
    NoRoom,
}

/// The result of adding to one field. The sum of two int32 is an int32 where it fits.
fn incremented(old: Option<&Value>, operand: &Value) -> Sum
    ensures { IsSum (option_map (λ v. tree_of v.now) old.entry) (tree_of operand.now) result }
{
    let Some(right) = integer(operand) else {
        return Sum::WrongSide;
    };
    let Some(old) = old else {
        return match operand {
            Value::Int32(number) => Sum::Whole(Value::Int32(*number)),
            _ => Sum::Whole(Value::Int64(right)),
        };
    };
    let Some(left) = integer(old) else {
        return Sum::WrongSide;
    };
    let Some(total) = left.checked_add(right) else {
        return Sum::NoRoom;
    };
    match (old, operand, i32::try_from(total)) {
        (Value::Int32(_), Value::Int32(_), Ok(total)) => Sum::Whole(Value::Int32(total)),
        _ => Sum::Whole(Value::Int64(total)),
    }
}

/// Puts each name with its sum. A wrong kind at any name is reported before an overflow at another.
#[tactic(auto, using(crate::proofs::NameRules::sides))]
pub(crate) fn add_sums(
    alloc: Global,
    sets: &mut Ordered,
    operands: &Doc,
    document: &FieldIndex<'_>,
) -> Result<(), WriteRefusal>
    ensures { AddsSums document.now operands.now sets.old sets.new result }
{
    let mut overflow = false;
    for place in (0..operands.len()).rev() {
        let Some((name, operand)) = operands.at(place) else {
            unreachable!()
        };
        let name = Text::from_str(alloc, name)?;
        match incremented(document.get(&name), operand) {
            Sum::Whole(total) => sets.put(name, total)?,
            Sum::NoRoom => overflow = true,
            Sum::WrongSide => return Err(WriteRefusal::IncType),
        }
    }
    if overflow {
        return Err(WriteRefusal::IncOverflow);
    }
    Ok(())
}
