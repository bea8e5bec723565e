// A law of the bytes, for readers: the function's contract is the law, and its body does nothing.
ghost use Rattle.std.specs.Prelude.{◌≡◌, ◌<◌, ◌^◌, List, ℕ};
ghost use Rattle.bson_doc.specs.Tree.{Fields};
ghost use Rattle.bson_codec.specs.Sound.{IsSound};
ghost use Rattle.bson_codec.specs.Spelling.{IsSpelling};

/// Bytes spell at most one document.
pub fn bytes_spell_one_document()
    ensures { (bound levels : ℕ) (bytes : List ℕ) (one two : Fields) → bound < 2 ^ 31
        → IsSound one → IsSound two
        → IsSpelling bound levels one bytes → IsSpelling bound levels two bytes → one ≡ two }
{}
