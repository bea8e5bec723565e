// Records that are added, one or several, and the memory for them.
ghost use Rattle.std.specs.Prelude.{◌≡◌, ◌≢◌, ◌+◌, ◌^◌, ◌<◌, ◌≤◌, [], ◌∷◌, ◌++◌, All, length, sum_by, vec_capacity, Err, IfOk, IsOk, OnOk, IsErrOf};
ghost use Rattle.rs_disk.specs.File.{contents};
ghost use Rattle.rs_disk.specs.State.{Keeps, SameButRoom};
ghost use Rattle.record_file.specs.Files.{IsOpen, EndsBy, adding_steps, append_steps};
ghost use Rattle.record_file.specs.Records.{body, lists};

use crate::FileError;
use crate::store::store;
use rs_disk::Disk;
use std::alloc::AllocError;

// What is written after a record's gate takes 5 bytes more than the record: its length, and the next gate.
const AROUND: usize = 5;

// Lays out a record in the buffer, and stores it.
pub(crate) fn add<D: Disk>(
    disk: &mut D,
    buffer: &mut Vec<u8>,
    piece: &[u8],
) -> Result<(), FileError>
    requires open { IsOpen (D.state disk.old) }
    requires short { length piece.now < 2 ^ 32 }

    ensures memory { result ≡ Err FileError.Memory → SameButRoom (D.state disk.old) (D.state disk.new) }
    ensures room { length piece.now + 5 ≤ vec_capacity buffer.old
        → length (contents (D.state disk.old).file) + (length piece.now + 5) ≤ (D.state disk.old).room
        → result ≢ Err FileError.Memory }
    ensures longer { OnOk result (length (contents (D.state disk.new).file)
        ≡ length (contents (D.state disk.old).file) + (length piece.now + 5)) }
    ensures calls { EndsBy result
        (append_steps (length (contents (D.state disk.old).file)) (body piece.now ++ 0 ∷ []))
        (D.state disk.old) (D.state disk.new) }
    ensures keeps { Keeps (IsErrOf result FileError.Disk) (D.state disk.old) (D.state disk.new) }
    ensures capacity { vec_capacity buffer.old ≤ vec_capacity buffer.new }
{
    lay(buffer, piece)?;
    store(disk, buffer)
}

// Lays out what goes after a record's gate: its bytes and the next gate.
fn lay(buffer: &mut Vec<u8>, piece: &[u8]) -> Result<(), AllocError>
    requires { length piece.now < 2 ^ 32 }
    ensures laid { OnOk result (buffer.new.items ≡ body piece.now ++ 0 ∷ []) }
    ensures enough { length piece.now + 5 ≤ vec_capacity buffer.old → IsOk result }
    ensures longer { vec_capacity buffer.old ≤ vec_capacity buffer.new }
{
    buffer.clear();
    buffer.reserve(piece.len() + AROUND)?;
    buffer.extend_from_slice(&(piece.len() as u32).to_le_bytes())?;
    buffer.extend_from_slice(piece)?;
    buffer.push(0)?;
    Ok(())
}

// Reserves memory for these records, and then adds them one after the other.
pub(crate) fn add_all<D: Disk>(
    disk: &mut D,
    buffer: &mut Vec<u8>,
    pieces: &[Vec<u8>],
) -> Result<(), FileError>
    requires open { IsOpen (D.state disk.old) }
    requires short { All (λ piece. length piece.items < 2 ^ 32) pieces.now }

    ensures memory { result ≡ Err FileError.Memory → SameButRoom (D.state disk.old) (D.state disk.new) }
    ensures calls { EndsBy result
        (adding_steps (length (contents (D.state disk.old).file)) (lists pieces.now))
        (D.state disk.old) (D.state disk.new) }
    ensures keeps { Keeps (IsErrOf result FileError.Disk) (D.state disk.old) (D.state disk.new) }
{
    reserve_for(disk, buffer, pieces)?;
    add_each(disk, buffer, pieces)
}

// Reserves memory for all of these records on the disk, and in the buffer for the longest of them.
fn reserve_for<D: Disk>(
    disk: &mut D,
    buffer: &mut Vec<u8>,
    pieces: &[Vec<u8>],
) -> Result<(), AllocError>
    requires { All (λ piece. length piece.items < 2 ^ 32) pieces.now }
    ensures same { SameButRoom (D.state disk.old) (D.state disk.new) }
    ensures kept { (D.state disk.old).room ≤ (D.state disk.new).room }
    ensures together { OnOk result (length (contents (D.state disk.new).file)
        + sum_by (λ piece. length piece.items + 5) pieces.now ≤ (D.state disk.new).room) }
    ensures longest { OnOk result
        (All (λ piece. length piece.items + 5 ≤ vec_capacity buffer.new) pieces.now) }
{
    disk.reserve(bytes_of(pieces)?)?;
    buffer.clear();
    buffer.reserve(longest_of(pieces))
}

// How many bytes these records take together.
fn bytes_of(pieces: &[Vec<u8>]) -> Result<u64, AllocError>
    requires { All (λ piece. length piece.items < 2 ^ 32) pieces.now }
    ensures { IfOk result (λ bytes. bytes ≡ sum_by (λ piece. length piece.items + 5) pieces.now) }
{
    let mut bytes: u64 = 0;
    for piece in pieces {
        let Some(more) = bytes.checked_add((piece.len() + AROUND) as u64) else {
            return Err(AllocError);
        };
        bytes = more;
    }
    Ok(bytes)
}

// How many bytes the longest of these records takes.
fn longest_of(pieces: &[Vec<u8>]) -> usize
    requires { All (λ piece. length piece.items < 2 ^ 32) pieces.now }
    ensures { All (λ piece. length piece.items + 5 ≤ result) pieces.now }
{
    let mut longest = 0;
    for piece in pieces {
        longest = longest.max(piece.len() + AROUND);
    }
    longest
}

// Adds records for which there is memory.
fn add_each<D: Disk>(
    disk: &mut D,
    buffer: &mut Vec<u8>,
    pieces: &[Vec<u8>],
) -> Result<(), FileError>
    requires open { IsOpen (D.state disk.old) }
    requires short { All (λ piece. length piece.items < 2 ^ 32) pieces.now }
    requires together { length (contents (D.state disk.old).file)
        + sum_by (λ piece. length piece.items + 5) pieces.now ≤ (D.state disk.old).room }
    requires longest { All (λ piece. length piece.items + 5 ≤ vec_capacity buffer.old) pieces.now }

    ensures memory { result ≢ Err FileError.Memory }
    ensures calls { EndsBy result
        (adding_steps (length (contents (D.state disk.old).file)) (lists pieces.now))
        (D.state disk.old) (D.state disk.new) }
    ensures keeps { Keeps (IsErrOf result FileError.Disk) (D.state disk.old) (D.state disk.new) }
{
    for piece in pieces {
        add(disk, buffer, piece)?;
    }
    Ok(())
}
