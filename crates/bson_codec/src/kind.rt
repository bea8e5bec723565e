ghost use Rattle.bson_codec.specs.Outcome.{Gives};
ghost use Rattle.bson_codec.specs.Reading.{kind_of};

use crate::DecodeError;

/// The kinds of value that are read.
#[derive(Clone, Copy, Debug, PartialEq, Eq)]
pub enum Kind {
    Text,
    Document,
    Array,
    Binary,
    ObjectId,
    Boolean,
    Date,
    Null,
    Int32,
    Timestamp,
    Int64,
}

/// The kind that a byte names (BSON 1.1), or `Kind` with the byte where it names none that is read here.
#[tactic(auto, unfolding(crate::specs::Reading::kind_of))]
pub fn kind_named(byte: u8) -> Result<Kind, DecodeError>
    ensures { Gives (λ k. k) result (kind_of byte) }
{
    match byte {
        2 => Ok(Kind::Text),
        3 => Ok(Kind::Document),
        4 => Ok(Kind::Array),
        5 => Ok(Kind::Binary),
        7 => Ok(Kind::ObjectId),
        8 => Ok(Kind::Boolean),
        9 => Ok(Kind::Date),
        10 => Ok(Kind::Null),
        16 => Ok(Kind::Int32),
        17 => Ok(Kind::Timestamp),
        18 => Ok(Kind::Int64),
        _ => Err(DecodeError::Kind(byte)),
    }
}
