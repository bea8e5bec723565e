// The disk calls of an append.
ghost use Rattle.std.specs.Prelude.{◌≡◌, ◌≢◌, ◌+◌, ◌≤◌, [], ◌∷◌, length, max, Err, OnOk, IsErrOf};
ghost use Rattle.rs_disk.specs.File.{contents, write};
ghost use Rattle.rs_disk.specs.State.{Keeps, SameButRoom};
ghost use Rattle.rs_disk.specs.Steps.{changes, syncs};
ghost use Rattle.record_file.specs.Files.{IsOpen, EndsBy, append_steps};

use crate::FileError;
use rs_disk::Disk;

// Puts a record after the last gate, followed by a closed gate, and opens that last gate once the
// record is synced.
#[tactic(auto, using(crate::proofs::StepLemmas::append_stops))]
pub(crate) fn store<D: Disk>(disk: &mut D, tail: &[u8]) -> Result<(), FileError>
    requires { IsOpen (D.state disk.old) }

    ensures memory { result ≡ Err FileError.Memory → SameButRoom (D.state disk.old) (D.state disk.new) }
    ensures room { length (contents (D.state disk.old).file) + length tail.now ≤ (D.state disk.old).room
        → result ≢ Err FileError.Memory }
    ensures longer { OnOk result (length (contents (D.state disk.new).file)
        ≡ length (contents (D.state disk.old).file) + length tail.now) }
    ensures calls { EndsBy result (append_steps (length (contents (D.state disk.old).file)) tail.now)
        (D.state disk.old) (D.state disk.new) }
    ensures keeps { Keeps (IsErrOf result FileError.Disk) (D.state disk.old) (D.state disk.new) }
{
    let at = disk.len();
    put(disk, at, tail)?;
    put(disk, at - 1, &[1])?;
    Ok(())
}

// Writes the bytes at that place, and syncs them.
pub(crate) fn put<D: Disk>(disk: &mut D, at: u64, bytes: &[u8]) -> Result<(), FileError>
    requires { at ≤ length (contents (D.state disk.old).file) }
    ensures memory { result ≡ Err FileError.Memory → SameButRoom (D.state disk.old) (D.state disk.new) }
    ensures room { at + length bytes.now
        ≤ max (length (contents (D.state disk.old).file)) (D.state disk.old).room
        → result ≢ Err FileError.Memory }
    ensures calls { EndsBy result (changes (write at bytes.now) ∷ syncs ∷ []) (D.state disk.old)
        (D.state disk.new) }
    ensures keeps { Keeps (IsErrOf result FileError.Disk) (D.state disk.old) (D.state disk.new) }
{
    disk.write_at(at, bytes)?;
    disk.sync()?;
    Ok(())
}
