// Numbers in little-endian bytes.
ghost use Rattle.std.specs.Prelude.{◌≡◌, ◌≤◌, ◌+◌, ◌++◌, OnOk, length, take, drop, vec_capacity};
ghost use Rattle.std.specs.Int.{w32, w64, cast_unsigned};
ghost use Rattle.bson_codec.specs.Numbers.{number_bytes};
ghost use Rattle.bson_codec.specs.Outcome.{Gives};
ghost use Rattle.bson_codec.specs.Reading.{number_at, bytes_at};

use crate::DecodeError;
use bson_doc::Mem;
use byteorder::{ByteOrder, LittleEndian};

/// Appends a number in four bytes. The only error is out of memory, and then nothing is promised about `out`;
/// the same holds for the next three.
#[tactic(auto, unfolding(crate::specs::Numbers::number_bytes))]
pub fn put_u32(out: &mut Vec<u8>, number: u32) -> Mem<()>
    ensures laid { OnOk result (out.new.items ≡ out.old.items ++ number_bytes 4 number) }
    ensures longer { OnOk result (vec_capacity out.old ≤ vec_capacity out.new) }
{
    let mut bytes = [0; 4];
    LittleEndian::write_u32(&mut bytes, number);
    out.extend_from_slice(&bytes)
}

/// Appends a signed number in four bytes, in two's complement.
#[tactic(auto, unfolding(crate::specs::Numbers::number_bytes))]
pub fn put_i32(out: &mut Vec<u8>, number: i32) -> Mem<()>
    ensures laid { OnOk result (out.new.items ≡ out.old.items ++ number_bytes 4 (cast_unsigned w32 number)) }
    ensures longer { OnOk result (vec_capacity out.old ≤ vec_capacity out.new) }
{
    let mut bytes = [0; 4];
    LittleEndian::write_i32(&mut bytes, number);
    out.extend_from_slice(&bytes)
}

/// Appends a number in eight bytes.
#[tactic(auto, unfolding(crate::specs::Numbers::number_bytes))]
pub fn put_u64(out: &mut Vec<u8>, number: u64) -> Mem<()>
    ensures laid { OnOk result (out.new.items ≡ out.old.items ++ number_bytes 8 number) }
    ensures longer { OnOk result (vec_capacity out.old ≤ vec_capacity out.new) }
{
    let mut bytes = [0; 8];
    LittleEndian::write_u64(&mut bytes, number);
    out.extend_from_slice(&bytes)
}

/// Appends a signed number in eight bytes, in two's complement.
#[tactic(auto, unfolding(crate::specs::Numbers::number_bytes))]
pub fn put_i64(out: &mut Vec<u8>, number: i64) -> Mem<()>
    ensures laid { OnOk result (out.new.items ≡ out.old.items ++ number_bytes 8 (cast_unsigned w64 number)) }
    ensures longer { OnOk result (vec_capacity out.old ≤ vec_capacity out.new) }
{
    let mut bytes = [0; 8];
    LittleEndian::write_i64(&mut bytes, number);
    out.extend_from_slice(&bytes)
}

/// Overwrites the four bytes at a place with a number.
#[tactic(auto, unfolding(crate::specs::Numbers::number_bytes))]
pub fn set_u32(bytes: &mut [u8], place: usize, number: u32)
    requires { place + 4 ≤ length bytes.old }
    ensures { bytes.new ≡ (take place bytes.old ++ number_bytes 4 number) ++ drop (place + 4) bytes.old }
{
    let mut digits = [0; 4];
    LittleEndian::write_u32(&mut digits, number);
    bytes[place..place + 4].copy_from_slice(&digits);
}

/// The first `count` bytes, and those after them. `Length` where there are fewer.
pub fn bytes_of(bytes: &[u8], count: usize) -> Result<(&[u8], &[u8]), DecodeError>
    ensures { Gives (λ x. (x.0.now, x.1.now)) result (bytes_at count bytes.now) }
{
    if bytes.len() < count {
        return Err(DecodeError::Length);
    }
    Ok(bytes.split_at(count))
}

/// The number in the first four bytes, and the bytes after it. `Length` where there are fewer.
#[tactic(auto, unfolding(crate::specs::Numbers::number_in))]
pub fn u32_of(bytes: &[u8]) -> Result<(u32, &[u8]), DecodeError>
    ensures { Gives (λ x. (x.0, x.1.now)) result (number_at 4 bytes.now) }
{
    if bytes.len() < 4 {
        return Err(DecodeError::Length);
    }
    Ok((LittleEndian::read_u32(bytes), &bytes[4..]))
}

/// The number in the first eight bytes, and the bytes after it. `Length` where there are fewer.
#[tactic(auto, unfolding(crate::specs::Numbers::number_in))]
pub fn u64_of(bytes: &[u8]) -> Result<(u64, &[u8]), DecodeError>
    ensures { Gives (λ x. (x.0, x.1.now)) result (number_at 8 bytes.now) }
{
    if bytes.len() < 8 {
        return Err(DecodeError::Length);
    }
    Ok((LittleEndian::read_u64(bytes), &bytes[8..]))
}
