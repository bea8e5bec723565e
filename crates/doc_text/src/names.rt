// Names of fields.
ghost use Rattle.std.specs.Prelude.{◌<◌, IfOk, length, Contains};
ghost use Rattle.doc_text.specs.Fault.{Gives};
ghost use Rattle.doc_text.specs.Names.{name_at};

use crate::class::{Class, starts_name};
use crate::fault::{Fault, Read, ReadError, Rule};
use crate::marks::skip;
use crate::strings::letters;
use bson_doc::Text;
use std::alloc::Global;

/// A bare name, or one written as a string.
#[tactic(auto, unfolding(crate::specs::Names::name_at))]
pub fn name<'a>(alloc: Global, text: &'a str) -> Read<'a, Text>
    ensures gives { Gives (λ x. (x.0, x.1.now)) result (name_at text.now) }
    ensures shorter { IfOk result (λ x. length x.1.now < length text.now) }
    ensures clean { IfOk result (λ x. ¬ Contains x.0 0) }
{
    match text.as_bytes() {
        [b'"', ..] => letters(alloc, skip(text), true),
        [first, ..] if starts_name(*first) => {
            let (bare, rest) = Class::Name.run(text);
            Ok((Text::from_str(alloc, bare)?, rest))
        }
        _ => Err(ReadError::Fault(Fault::at(Rule::Unexpected, text))),
    }
}
