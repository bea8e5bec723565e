// Whether two values are the same, kind by kind and field by field, so that int32 5 and int64 5 differ.
ghost use Rattle.std.specs.Prelude.{◌≡◌, false, IsTrue};
ghost use Rattle.bson_doc.specs.View.{tree_of};
ghost use Rattle.bson_doc.specs.Same.{same_tree, same_fields, same_items};

use crate::{Doc, Items, Value};

#[cycle(same)]
#[tactic(auto, using(crate::proofs::SameLemmas::sameness))]
fn same_value(one: &Value, two: &Value) -> bool
    ensures { result ≡ same_tree (tree_of one.now) (tree_of two.now) }
{
    match (one, two) {
        (Value::Null, Value::Null) => true,
        (Value::Int32(one), Value::Int32(two)) => one == two,
        (Value::Int64(one), Value::Int64(two)) => one == two,
        (Value::Text(one), Value::Text(two)) => one == two,
        (Value::Document(one), Value::Document(two)) => same_document(one, two),
        (Value::Array(one), Value::Array(two)) => same_array(one, two),
        (Value::Binary(kind, one), Value::Binary(other_kind, two)) => kind == other_kind
            && one == two,
        (Value::ObjectId(one), Value::ObjectId(two)) => one == two,
        (Value::Boolean(one), Value::Boolean(two)) => one == two,
        (Value::Date(one), Value::Date(two)) => one == two,
        (Value::Timestamp(one), Value::Timestamp(two)) => one == two,
        _ => false,
    }
}

#[cycle(same)]
#[tactic(auto, using(crate::proofs::SameLemmas::sameness))]
fn same_array(one: &Items, two: &Items) -> bool
    ensures { result ≡ same_items one.now two.now }
{
    if one.len() != two.len() {
        return false;
    }
    for place in 0..one.len() {
        if let (Some(first), Some(second)) = (one.at(place), two.at(place))
            && !same_value(first, second)
        {
            return false;
        }
    }
    true
}

#[cycle(same)]
#[tactic(auto, using(crate::proofs::SameLemmas::sameness))]
fn same_document(one: &Doc, two: &Doc) -> bool
    ensures { result ≡ same_fields one.now two.now }
{
    if one.len() != two.len() {
        return false;
    }
    for place in 0..one.len() {
        if let (Some(first), Some(second)) = (one.at(place), two.at(place))
            && (first.0 != second.0 || !same_value(first.1, second.1))
        {
            return false;
        }
    }
    true
}

/// Texts of at most this many bytes are compared at a glance.
const SHORT: usize = 64;

/// Whether two values differ in what is cheap to compare: numbers and short texts.
fn values_differ_at_a_glance(one: &Value, two: &Value) -> bool
    ensures { IsTrue result → same_tree (tree_of one.now) (tree_of two.now) ≡ false }
{
    match (one, two) {
        (Value::Int32(one), Value::Int32(two)) => one != two,
        (Value::Int64(one), Value::Int64(two)) => one != two,
        (Value::Text(one), Value::Text(two)) => one.as_str().len() <= SHORT && one != two,
        (Value::Boolean(one), Value::Boolean(two)) => one != two,
        (Value::Date(one), Value::Date(two)) => one != two,
        (Value::Timestamp(one), Value::Timestamp(two)) => one != two,
        _ => false,
    }
}

/// Whether two documents differ in the number of their fields, or at a glance in one of them.
#[tactic(auto, using(crate::proofs::SameLemmas::sameness))]
fn documents_differ_at_a_glance(one: &Doc, two: &Doc) -> bool
    ensures { IsTrue result → same_fields one.now two.now ≡ false }
{
    if one.len() != two.len() {
        return true;
    }
    for place in 0..one.len() {
        if let (Some(first), Some(second)) = (one.at(place), two.at(place))
            && values_differ_at_a_glance(first.1, second.1)
        {
            return true;
        }
    }
    false
}

/// Two values are equal where they have the same kind and the same content, that is, the same bytes.
impl PartialEq for Value {
    ghost use Rattle.std.specs.Ordering.{on};
    ghost use Rattle.bson_doc.specs.View.{tree_of};
    ghost use Rattle.bson_doc.specs.Same.{same_tree};
    ghost use Rattle.bson_doc.specs.SameLaws.{same_value-laws};

    ghost eq = { on tree_of same_tree };

    ghost laws = { same_value-laws.1 };

    fn eq(&self, other: &Value) -> bool {
        same_value(self, other)
    }
}

impl Eq for Value {
    ghost use Rattle.bson_doc.specs.SameLaws.{same_value-laws};

    ghost laws = { same_value-laws.0 };
}

/// Two documents are equal where they have the same fields in the same order, that is, the same bytes. What
/// is cheap to compare is compared first.
impl PartialEq for Doc {
    ghost use Rattle.bson_doc.specs.Same.{same_fields};
    ghost use Rattle.bson_doc.specs.SameLaws.{same_fields-laws};

    ghost eq = { same_fields };

    ghost laws = { same_fields-laws.1 };

    fn eq(&self, other: &Doc) -> bool {
        if documents_differ_at_a_glance(self, other) {
            return false;
        }
        same_document(self, other)
    }
}

impl Eq for Doc {
    ghost use Rattle.bson_doc.specs.SameLaws.{same_fields-laws};

    ghost laws = { same_fields-laws.0 };
}

/// Two arrays are equal where they have equal values in the same order.
impl PartialEq for Items {
    ghost use Rattle.bson_doc.specs.Same.{same_items};
    ghost use Rattle.bson_doc.specs.SameLaws.{same_items-laws};

    ghost eq = { same_items };

    ghost laws = { same_items-laws.1 };

    fn eq(&self, other: &Items) -> bool {
        same_array(self, other)
    }
}

impl Eq for Items {
    ghost use Rattle.bson_doc.specs.SameLaws.{same_items-laws};

    ghost laws = { same_items-laws.0 };
}
