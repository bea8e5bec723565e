// Runs of bytes of one class.
ghost use Rattle.std.specs.Prelude.{◌≡◌, ◌+◌, length};
ghost use Rattle.std.specs.List.{take_while};
ghost use Rattle.doc_text.specs.Bytes.{is_name_start};

/// The bytes that a run may have.
#[derive(Clone, Copy)]
pub enum Class {
    /// A space.
    Space,
    /// A decimal digit.
    Digit,
    /// A hexadecimal digit.
    HexDigit,
    /// What a bare name may continue with.
    Name,
    /// What stands for itself in a string.
    Plain,
}

impl Class {
    ghost use Rattle.doc_text.specs.Class.{is_in, after_front};

    fn has(self, byte: u8) -> bool
        ensures { result ≡ is_in self byte }
    {
        match self {
            Class::Space => byte == b' ',
            Class::Digit => byte.is_ascii_digit(),
            Class::HexDigit => byte.is_ascii_hexdigit(),
            Class::Name => starts_name(byte) || byte.is_ascii_digit(),
            Class::Plain => !byte.is_ascii_control() && byte != b'"' && byte != b'\\',
        }
    }

    /// The longest prefix of the text in the class, and the text after it. It is inlined, so that each
    /// loop tests for the one class that its caller names.
    #[inline(always)]
    pub fn run(self, text: &str) -> (&str, &str)
        ensures front { result.0.now ≡ take_while (is_in self) text.now }
        ensures back { result.1.now ≡ after_front self text.now }
        ensures len { length result.0.now + length result.1.now ≡ length text.now }
    {
        let mut len = 0;
        while len < text.len() && self.has(text.as_bytes()[len]) {
            len += 1;
        }
        text.split_at(len)
    }
}

/// Whether a bare name may begin with the byte.
pub fn starts_name(byte: u8) -> bool
    ensures { result ≡ is_name_start byte }
{
    byte.is_ascii_alphabetic() || byte == b'_' || byte == b'$'
}
