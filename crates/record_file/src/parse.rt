// The records in some bytes.
ghost use Rattle.std.specs.Prelude.{List, ℕ, IfOk, MatchOption};
ghost use Rattle.record_file.specs.Records.{AreInFront, lists};
ghost use Rattle.record_file.specs.Parsed.{IsFirst, IsParsed};

use std::alloc::{AllocError, Global};

// The records up to the first closed gate, and the place after that gate.
pub(crate) fn parse(alloc: Global, bytes: &[u8]) -> Result<(Vec<Vec<u8>>, usize), AllocError>
    requires { (records : List (List ℕ)) × AreInFront bytes.now records }
    ensures { IfOk result (λ parsed. IsParsed bytes.now (lists parsed.0.items) parsed.1) }
{
    let mut records = Vec::new(alloc);
    let mut rest = bytes;
    while let Some((piece, after)) = first_record(rest) {
        records.push(piece.to_vec(alloc)?)?;
        rest = after;
    }
    Ok((records, bytes.len() - rest.len() + 1))
}

// The record after an open gate at the start, and what follows it.
fn first_record(bytes: &[u8]) -> Option<(&[u8], &[u8])>
    ensures { MatchOption result ((gate : ℕ) (piece rest : List ℕ) → IsFirst bytes.now gate piece rest → ⊥)
        (λ parts. (gate : ℕ) × IsFirst bytes.now gate parts.0.now parts.1.now) }
{
    let [gate, a, b, c, d, rest @ ..] = bytes else {
        return None;
    };
    let len = u32::from_le_bytes([*a, *b, *c, *d]) as usize;
    if *gate == 0 || rest.len() < len {
        return None;
    }
    Some((&rest[..len], &rest[len..]))
}
