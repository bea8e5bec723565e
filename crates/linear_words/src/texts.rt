// The line of a linear read's result.
ghost use Rattle.std.specs.Prelude.{◌≡◌, OnOk, string_bytes};
ghost use Rattle.linear_words.specs.Texts.{told_text};

use crate::LinearTold;
use bson_doc::Mem;
use doc_text::write_document;
use transcript::write_refusal;

/// Writes the line into `text` in place of what was there. If memory runs out, `text` is of no use.
pub fn set_told(told: &LinearTold, text: &mut String) -> Mem<()>
    ensures { OnOk result (string_bytes text.new ≡ told_text told.now) }
{
    text.clear();
    match told {
        LinearTold::Found(found) => {
            text.push_str("linear found ")?;
            write_document(found, text)?;
            text.push_str("\n")
        }
        LinearTold::Missing => text.push_str("linear missing\n"),
        LinearTold::Refused(why) => {
            text.push_str("linear refused ")?;
            write_refusal(*why, text)?;
            text.push_str("\n")
        }
        LinearTold::NoSuchNode => text.push_str("linear refused 17 NoSuchNode\n"),
    }
}
