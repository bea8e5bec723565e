// Texts of the notation of documents, and what they stand for by its rules.
use crate::found::is_text;
use doc_text::{TextError, read_value, write_value};
use std::alloc::Global;
use std::test::Fail;

/// The printed text of the value that a text begins with.
fn printed(alloc: Global, text: &str) -> Result<String, TextError> {
    let (value, _) = read_value(alloc, text, 0)?;
    let mut out = String::new(alloc);
    match write_value(&value, &mut out) {
        Ok(()) => Ok(out),
        Err(_) => Err(TextError::Memory),
    }
}

/// Why a text doesn't begin with a value.
fn refusal(alloc: Global, text: &str) -> Option<TextError> {
    printed(alloc, text).err()
}

#[test]
fn prints(rt: HostRuntime) -> Result<(), Fail> {
    let text = printed(
        rt.alloc(),
        r#"{ "a" : -0,"b c" :[007L , Date ( -5 ),Bin(010, "0aFF"), Time(4294967295 ,0)], $_9:{ }, d: "\u0041\u000a\u007F" }"#,
    )?;
    is_text(
        text,
        r#"{a: 0, "b c": [7L, Date(-5), Bin(10, "0aff"), Time(4294967295, 0)], $_9: {}, d: "A\n\u007f"}"#,
    )
}

#[test]
fn refuses(rt: HostRuntime) {
    assert_eq!(rt;
        refusal(rt.alloc(), "[1, ]"),
        Some(TextError::Unexpected(4))
    );
    assert_eq!(rt;
        refusal(rt.alloc(), "2147483648x"),
        Some(TextError::Number(0))
    );
    assert_eq!(rt;
        refusal(rt.alloc(), r#""\uDfff""#),
        Some(TextError::Escape(4))
    );
    assert_eq!(rt;
        refusal(rt.alloc(), r#"Bin(0, "a")"#),
        Some(TextError::Hex(9))
    );
    assert_eq!(rt;
        refusal(rt.alloc(), r#"{a: 1, "a" }"#),
        Some(TextError::DuplicateName(7))
    );
    assert_eq!(rt;
        refusal(rt.alloc(), r#"{"a\u0000\x"#),
        Some(TextError::NameZero(8))
    );
}
