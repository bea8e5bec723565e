// Compares what was found with what was expected.
use std::test::Fail;

/// Fails if a text isn't the expected one, and says what it is.
pub fn is_text(found: String, wanted: &str) -> Result<(), Fail> {
    if found.as_str() == wanted {
        return Ok(());
    }
    Err(Fail::new(found))
}
