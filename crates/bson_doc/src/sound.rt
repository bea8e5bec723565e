// What the type of each kind of part implies: facts for proofs, which cost nothing.
ghost use Rattle.std.specs.Prelude.{◌≡◌, ◌<◌, ◌^◌, FitsSigned, length};
ghost use Rattle.std.specs.Int.{w32, w64};

/// An `i32` has 32 bits.
pub fn recall_fits_32(number: i32)
    ensures { FitsSigned w32 number }
{
    let _ = number;
}

/// An `i64` has 64 bits.
pub fn recall_fits_64(number: i64)
    ensures { FitsSigned w64 number }
{
    let _ = number;
}

/// A `u64` is below 2^64.
pub fn recall_fits_unsigned(number: u64)
    ensures { number < 2 ^ 64 }
{
    let _ = number;
}

/// An ObjectId has 12 bytes.
pub fn recall_12_bytes(id: &[u8; 12])
    ensures { length id.now ≡ 12 }
{
    let _ = id;
}
