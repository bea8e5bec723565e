// Whether entries are the same, by comparing their bytes.
ghost use Rattle.std.specs.Prelude.{◌≡◌, ◌↔◌, IfOk, IfSome, None, true};
ghost use Rattle.std.specs.List.{All};
ghost use Rattle.bson_codec.specs.Sound.{IsSound};
ghost use Rattle.bson_codec.specs.Spelling.{IsSpelling};
ghost use Rattle.entry_bytes.specs.Layout.{document_of};
ghost use Rattle.entry_bytes.specs.Sizes.{IsWithinEntry};
ghost use Rattle.oplog_entry.specs.Lawful.{IsLawful};
ghost use Rattle.oplog_entry.specs.Log.{Begins};

use bson_codec::EncodeError;
use entry_bytes::to_bytes;
use oplog_entry::Entry;
use rs_optime::Mem;
use std::alloc::{AllocError, Global};

// The bytes of an entry, where they are within the bounds of one.
fn bytes_of(alloc: Global, entry: &Entry) -> Mem<Option<Vec<u8>>>
    requires { IsLawful entry.now }
    ensures sound { IfOk result (λ bytes. IfSome bytes (λ bytes. IsSound (document_of entry.now))) }
    ensures some { IfOk result (λ bytes. IfSome bytes
        (λ bytes. IsSpelling 1048576 103 (document_of entry.now) bytes.items)) }
    ensures none { IfOk result (λ bytes. bytes ≡ None → ¬ IsWithinEntry entry.now) }
{
    match to_bytes(alloc, entry) {
        Ok(bytes) => Ok(Some(bytes)),
        Err(EncodeError::Memory) => Err(AllocError),
        Err(EncodeError::TooDeep) => Ok(None),
        Err(EncodeError::TooLarge) => Ok(None),
    }
}

fn same_entry(alloc: Global, one: &Entry, other: &Entry) -> Mem<bool>
    requires lawful { IsLawful one.now × IsLawful other.now }
    requires within { IsWithinEntry one.now }
    ensures { IfOk result (λ same. same ≡ true ↔ other.now ≡ one.now) }
{
    let Some(wanted) = bytes_of(alloc, one)? else {
        return Ok(false);
    };
    let Some(bytes) = bytes_of(alloc, other)? else {
        return Ok(false);
    };
    Ok(bytes == wanted)
}

/// Whether some entries begin with these.
pub(crate) fn begin_with(alloc: Global, entries: &[Entry], front: &[Entry]) -> Mem<bool>
    requires lawful { All IsLawful entries.now × All IsLawful front.now }
    requires within { All IsWithinEntry entries.now }
    ensures { IfOk result (λ begin. begin ≡ true ↔ Begins front.now entries.now) }
{
    let shared = entries.len().min(front.len());
    for place in 0..shared {
        if !same_entry(alloc, &entries[place], &front[place])? {
            return Ok(false);
        }
    }
    Ok(shared == front.len())
}
