// Values as they are shown in debugging.
use crate::{Bytes, Doc, Items, Text, Value};
use std::fmt;
use std::fmt::Write;

/// A string in quotation marks.
impl fmt::Debug for Text {
    fn fmt<W: Write>(&self, f: &mut fmt::Formatter<W>) -> fmt::Result {
        fmt::Debug::fmt(self.as_str(), f)
    }
}

/// A list of numbers.
impl fmt::Debug for Bytes {
    fn fmt<W: Write>(&self, f: &mut fmt::Formatter<W>) -> fmt::Result {
        fmt::Debug::fmt(self.as_slice(), f)
    }
}

/// A value by its kind, as `Int32(5)`.
#[cycle(show)]
fn show_value<W: Write>(value: &Value, f: &mut fmt::Formatter<W>) -> fmt::Result {
    match value {
        Value::Null => f.write_str("Null"),
        Value::Int32(number) => write!(f, "Int32({number})"),
        Value::Int64(number) => write!(f, "Int64({number})"),
        Value::Text(text) => write!(f, "Text({text:?})"),
        Value::Document(document) => show_document(document, f),
        Value::Array(items) => show_array(items, f),
        Value::Binary(subtype, bytes) => write!(f, "Binary({subtype}, {bytes:?})"),
        Value::ObjectId(id) => write!(f, "ObjectId({id:?})"),
        Value::Boolean(truth) => write!(f, "Boolean({truth})"),
        Value::Date(milliseconds) => write!(f, "Date({milliseconds})"),
        Value::Timestamp(ts) => write!(f, "Timestamp({ts})"),
    }
}

#[cycle(show)]
#[tactic(auto, using(crate::proofs::DocLemmas::doc_lemmas))]
fn show_document<W: Write>(document: &Doc, f: &mut fmt::Formatter<W>) -> fmt::Result {
    f.write_str("{")?;
    for place in 0..document.len() {
        if let Some((name, value)) = document.at(place) {
            if place > 0 {
                f.write_str(", ")?;
            }
            write!(f, "{name:?}: ")?;
            show_value(value, f)?;
        }
    }
    f.write_str("}")
}

#[cycle(show)]
#[tactic(auto, using(crate::proofs::DocLemmas::doc_lemmas))]
fn show_array<W: Write>(items: &Items, f: &mut fmt::Formatter<W>) -> fmt::Result {
    f.write_str("[")?;
    for place in 0..items.len() {
        if let Some(value) = items.at(place) {
            if place > 0 {
                f.write_str(", ")?;
            }
            show_value(value, f)?;
        }
    }
    f.write_str("]")
}

impl fmt::Debug for Value {
    fn fmt<W: Write>(&self, f: &mut fmt::Formatter<W>) -> fmt::Result {
        show_value(self, f)
    }
}

/// The fields in their order, as `{"_id": Int32(5)}`.
impl fmt::Debug for Doc {
    fn fmt<W: Write>(&self, f: &mut fmt::Formatter<W>) -> fmt::Result {
        show_document(self, f)
    }
}

/// The values in their order, as `[Int32(5)]`.
impl fmt::Debug for Items {
    fn fmt<W: Write>(&self, f: &mut fmt::Formatter<W>) -> fmt::Result {
        show_array(self, f)
    }
}
