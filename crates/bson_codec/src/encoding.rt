ghost use Rattle.std.specs.Prelude.{◌<◌, ◌≤◌, ◌^◌, ◌↔◌, IfOk, OnOk, IsErrOf};
ghost use Rattle.bson_doc.specs.Length.{document_length, document_levels};
ghost use Rattle.bson_codec.specs.Sound.{IsSound};
ghost use Rattle.bson_codec.specs.Spelling.{IsSpelling};

use crate::writing::write;
use crate::{Bounds, EncodeError};
use bson_doc::{Doc, levels};
use std::alloc::Global;

/// The bytes of a document (BSON 1.1), its only spelling. `TooDeep` where it has more levels than the bounds
/// allow, otherwise `TooLarge` where it has more bytes.
pub fn encode(alloc: Global, doc: &Doc, bounds: Bounds) -> Result<Vec<u8>, EncodeError>
    requires { bounds.bytes < 2 ^ 31 }
    ensures ok { IfOk result (λ bytes. IsSpelling bounds.bytes bounds.levels doc.now bytes.items) }
    ensures sound { OnOk result (IsSound doc.now) }
    ensures too_deep { IsErrOf result EncodeError.TooDeep ↔ (bounds.levels < document_levels doc.now) }
    ensures too_large { IsErrOf result EncodeError.TooLarge
        ↔ ((document_levels doc.now ≤ bounds.levels) × (bounds.bytes < document_length doc.now)) }
{
    if !doc.fits(bounds) {
        let most = u64::from(bounds.levels);
        let is_too_deep = levels(doc, most + 1) > most;
        return Err(if is_too_deep {
            EncodeError::TooDeep
        } else {
            EncodeError::TooLarge
        });
    }
    doc.recall_sound();
    let mut bytes = Vec::new(alloc);
    write(alloc, doc, &mut bytes)?;
    Ok(bytes)
}
