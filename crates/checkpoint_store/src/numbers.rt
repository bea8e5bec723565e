// Numbers in little-endian bytes.
ghost use Rattle.std.specs.Prelude.{◌≡◌, ◌≤◌, ◌++◌, OnOk, length, drop};
ghost use Rattle.bson_codec.specs.Numbers.{number_bytes, number_in};

use byteorder::{ByteOrder, LittleEndian};
use rs_optime::Mem;

#[tactic(auto, unfolding(bson_codec::specs::Numbers::number_bytes))]
pub(crate) fn put_u32(out: &mut Vec<u8>, number: u32) -> Mem<()>
    ensures { OnOk result (out.new.items ≡ out.old.items ++ number_bytes 4 number) }
{
    let mut bytes = [0; 4];
    LittleEndian::write_u32(&mut bytes, number);
    out.extend_from_slice(&bytes)
}

#[tactic(auto, unfolding(bson_codec::specs::Numbers::number_bytes))]
pub(crate) fn put_u64(out: &mut Vec<u8>, number: u64) -> Mem<()>
    ensures { OnOk result (out.new.items ≡ out.old.items ++ number_bytes 8 number) }
{
    let mut bytes = [0; 8];
    LittleEndian::write_u64(&mut bytes, number);
    out.extend_from_slice(&bytes)
}

// The number in the first four bytes, and what follows them.
#[tactic(auto, unfolding(bson_codec::specs::Numbers::number_in))]
pub(crate) fn u32_of(bytes: &[u8]) -> (u32, &[u8])
    requires { 4 ≤ length bytes.now }
    ensures number { result.0 ≡ number_in 4 bytes.now }
    ensures rest { result.1.now ≡ drop 4 bytes.now }
{
    (LittleEndian::read_u32(bytes), &bytes[4..])
}

#[tactic(auto, unfolding(bson_codec::specs::Numbers::number_in))]
pub(crate) fn u64_of(bytes: &[u8]) -> (u64, &[u8])
    requires { 8 ≤ length bytes.now }
    ensures number { result.0 ≡ number_in 8 bytes.now }
    ensures rest { result.1.now ≡ drop 8 bytes.now }
{
    (LittleEndian::read_u64(bytes), &bytes[8..])
}
