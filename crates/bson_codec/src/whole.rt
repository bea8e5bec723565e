ghost use Rattle.std.specs.Prelude.{◌<◌, ◌^◌, IfOk, Ok};
ghost use Rattle.bson_doc.specs.Tree.{Fields};
ghost use Rattle.bson_codec.specs.Outcome.{Gives};
ghost use Rattle.bson_codec.specs.Sound.{IsSound};
ghost use Rattle.bson_codec.specs.Spelling.{IsSpelling};
ghost use Rattle.bson_codec.specs.Wholes.{outer_length, fields_within, read_document};

use crate::reading::fields_of;
use crate::{Bounds, DecodeError};
use bson_doc::Doc;
use byteorder::{ByteOrder, LittleEndian};
use std::alloc::Global;

/// The outer length, which must be that of all the bytes.
#[tactic(auto, unfolding(crate::specs::Numbers::number_in))]
fn whole_length(bytes: &[u8], bound: u32) -> Result<usize, DecodeError>
    ensures { Gives (λ n. n) result (outer_length bound bytes.now) }
{
    if bytes.len() < 4 {
        return Err(DecodeError::Short);
    }
    let length = LittleEndian::read_u32(bytes);
    if length < 5 || length >= 1 << 31 {
        return Err(DecodeError::Length);
    }
    if length > bound {
        return Err(DecodeError::TooLarge);
    }
    let length = length as usize;
    if bytes.len() < length {
        return Err(DecodeError::Short);
    }
    if bytes.len() > length {
        return Err(DecodeError::Trailing);
    }
    Ok(length)
}

/// The fields of a document after its length.
fn fields_within_levels(alloc: Global, content: &[u8], levels: u32) -> Result<Doc, DecodeError>
    ensures { Gives (λ d. d) result (fields_within levels content.now) }
{
    if levels == 0 {
        return Err(DecodeError::TooDeep);
    }
    fields_of(alloc, content, levels - 1)
}

#[tactic(auto, unfolding(crate::specs::Wholes::read_document))]
fn read(alloc: Global, bytes: &[u8], bounds: Bounds) -> Result<Doc, DecodeError>
    ensures { Gives (λ d. d) result (read_document bounds.bytes bounds.levels bytes.now) }
{
    whole_length(bytes, bounds.bytes)?;
    fields_within_levels(alloc, &bytes[4..], bounds.levels)
}

/// The document that the bytes spell (BSON 1.1) within the bounds; otherwise the first rule that is
/// broken, reading from left to right. The outer length is tested first of all: `Short`, `Length`,
/// `TooLarge`, `Short`, `Trailing`.
pub fn decode(alloc: Global, bytes: &[u8], bounds: Bounds) -> Result<Doc, DecodeError>
    requires { bounds.bytes < 2 ^ 31 }
    // What is read is spelled by these bytes, within the bounds.
    ensures ok { IfOk result (λ d. IsSound d × IsSpelling bounds.bytes bounds.levels d bytes.now) }
    // A document that these bytes spell within the bounds is read, unless memory runs out.
    ensures only { (d : Fields) → IsSound d → IsSpelling bounds.bytes bounds.levels d bytes.now
        → Gives (λ x. x) result (Ok d) }
    // Otherwise the error is the first rule that is broken, reading from left to right.
    ensures exact { Gives (λ d. d) result (read_document bounds.bytes bounds.levels bytes.now) }
{
    read(alloc, bytes, bounds)
}
