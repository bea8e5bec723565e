// The caller's buffers.
ghost use Rattle.std.specs.Prelude.{◌≡◌, ◌++◌, drop, length, take};

/// Puts as much of a text from this byte on as there is room for, and how long that is as a whole.
pub(crate) fn put(text: &[u8], from: u64, out: &mut [u8], size: &mut usize)
    ensures size { size.new ≡ length (drop from text.now) }
    ensures out { out.new
        ≡ take (length out.old) (drop from text.now) ++ drop (length (drop from text.now)) out.old }
{
    let rest = rest(text, from);
    *size = rest.len();
    fill(rest, out);
}

/// The bytes from this one on.
fn rest(text: &[u8], from: u64) -> &[u8]
    ensures { result.now ≡ drop from text.now }
{
    if from < text.len() as u64 {
        &text[from as usize..]
    } else {
        &[]
    }
}

/// Puts as many bytes as there is room for.
fn fill(bytes: &[u8], out: &mut [u8])
    ensures { out.new ≡ take (length out.old) bytes.now ++ drop (length bytes.now) out.old }
{
    let most = bytes.len().min(out.len());
    out[..most].copy_from_slice(&bytes[..most]);
}
