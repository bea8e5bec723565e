// Records as they are written.
ghost use Rattle.std.specs.Prelude.{◌≡◌, ◌<◌, ◌≤◌, ◌^◌, ◌++◌, All, IfOk, OnOk, length, map, true};
ghost use Rattle.std.specs.List.{flat_map};
ghost use Rattle.std.specs.Str.{is_utf8};
ghost use Rattle.entry_bytes.specs.Optimes.{optime_bytes};
ghost use Rattle.version_store.specs.Shown.{place_of, placed};
ghost use Rattle.checkpoint_store.specs.Layout.{begins, ends, holds, saved_bytes, sized};
ghost use Rattle.checkpoint_store.specs.Shown.{CanBeSaved, EachCanBeSaved};
ghost use Rattle.checkpoint_store.specs.Spelled.{PIECE, IsOptime, IsSaved, IsSpelled};

use crate::numbers::{put_u32, put_u64};
use bson_codec::{FEW_LETTERS, put_size, write};
use rs_optime::{Mem, OpTime};
use std::alloc::Global;
use version_store::Shown;

// Room for this many bytes is made for each document.
const USUAL_BYTES: usize = 64;

fn put_optime(out: &mut Vec<u8>, at: OpTime) -> Mem<()>
    ensures laid { OnOk result (out.new.items ≡ out.old.items ++ optime_bytes at) }
    ensures fits { IsOptime at }
{
    put_u64(out, at.term)?;
    put_u64(out, at.ts)
}

fn put_sized(out: &mut Vec<u8>, bytes: &[u8]) -> Mem<()>
    requires { length bytes.now < 2 ^ 32 }
    ensures { OnOk result (out.new.items ≡ out.old.items ++ sized bytes.now) }
{
    put_u32(out, bytes.len() as u32)?;
    if bytes.len() > FEW_LETTERS {
        return out.extend_from_slice(bytes);
    }
    put_few(out, bytes)
}

fn put_few(out: &mut Vec<u8>, bytes: &[u8]) -> Mem<()>
    ensures { OnOk result (out.new.items ≡ out.old.items ++ bytes.now) }
{
    for byte in bytes {
        out.push(*byte)?;
    }
    Ok(())
}

// Appends a document after its collection's name, with room for its length until it has been written.
fn put_saved(out: &mut Vec<u8>, shown: &Shown<'_>) -> Mem<()>
    requires { CanBeSaved (place_of shown.now) shown.now.document.now }
    ensures laid { OnOk result (out.new.items ≡ out.old.items ++ saved_bytes (placed shown.now)) }
    ensures fits { OnOk result (IsSaved (placed shown.now)) }
{
    shown.document.recall_sound();
    put_name(out, shown.ns)?;
    let start = out.len();
    put_u32(out, 0)?;
    write(*out.allocator(), shown.document, out)?;
    put_size(out, start);
    Ok(())
}

fn put_name(out: &mut Vec<u8>, ns: &str) -> Mem<()>
    requires { length ns.now < 2 ^ 32 }
    ensures laid { OnOk result (out.new.items ≡ out.old.items ++ sized ns.now) }
    ensures text { is_utf8 ns.now ≡ true }
{
    put_sized(out, ns.as_bytes())
}

fn put_each(out: &mut Vec<u8>, documents: &[Shown<'_>]) -> Mem<()>
    requires { EachCanBeSaved documents.now }
    ensures laid { OnOk result (out.new.items
        ≡ out.old.items ++ flat_map (λ shown. saved_bytes (placed shown)) documents.now) }
    ensures fits { OnOk result (All (λ shown. IsSaved (placed shown)) documents.now) }
{
    for shown in documents {
        put_saved(out, shown)?;
    }
    Ok(())
}

/// The record that begins a checkpoint.
pub(crate) fn begin_bytes(alloc: Global, at: OpTime) -> Mem<Vec<u8>>
    ensures { IfOk result (λ bytes. IsSpelled (begins at) bytes.items) }
{
    let mut out = Vec::new(alloc);
    out.push(1)?;
    put_optime(&mut out, at)?;
    Ok(out)
}

/// The record of some documents.
pub(crate) fn documents_bytes(alloc: Global, documents: &[Shown<'_>]) -> Mem<Vec<u8>>
    requires can { EachCanBeSaved documents.now }
    requires few { length documents.now ≤ PIECE }
    ensures { IfOk result (λ bytes. IsSpelled (holds (map placed documents.now)) bytes.items) }
{
    let mut out = Vec::with_capacity(alloc, documents.len() * USUAL_BYTES)?;
    out.push(2)?;
    put_u32(&mut out, documents.len() as u32)?;
    put_each(&mut out, documents)?;
    Ok(out)
}

/// The record that ends a checkpoint.
pub(crate) fn end_bytes(alloc: Global) -> Mem<Vec<u8>>
    ensures { IfOk result (λ bytes. IsSpelled ends bytes.items) }
{
    let mut out = Vec::new(alloc);
    out.push(3)?;
    Ok(out)
}
