// The texts of a want's lines.
ghost use Rattle.std.specs.Prelude.{◌≡◌, ◌<◌, true, length, MatchOption, None, Some};
ghost use Rattle.explore_words.specs.Texts.{begin_alike, cut_at_last, goes_on, is_idle, names_message};

/// What stands before the last mark of a text, and what follows it.
pub fn cut_at_last<'a>(text: &'a str, mark: &str) -> Option<(&'a str, &'a str)>
    requires { 0 < length mark.now }
    ensures { MatchOption result (cut_at_last mark.now text.now ≡ None)
        (λ x. cut_at_last mark.now text.now ≡ Some (x.0.now, x.1.now)) }
{
    text.rsplit_once(mark)
}

/// Whether a word of the text begins with `m`, as the name of a message does.
#[tactic(auto, using(crate::proofs::TextsNames::names_next))]
pub fn names_message(text: &str) -> bool
    ensures { result ≡ names_message true text.now }
{
    let mut begins = true;
    for byte in text.as_bytes() {
        if begins && *byte == b'm' {
            return true;
        }
        begins = *byte == b' ';
    }
    false
}

/// Whether one of two texts begins with the other.
#[tactic(auto, using(crate::proofs::TextsAlike::alike_is))]
fn begin_alike(one: &str, other: &str) -> bool
    ensures { result ≡ begin_alike one.now other.now }
{
    one.as_bytes().starts_with(other.as_bytes()) || other.as_bytes().starts_with(one.as_bytes())
}

/// Whether the text may go on as that of a delivery that changes nothing does.
pub fn is_idle(text: &str) -> bool
    ensures { result ≡ is_idle text.now }
{
    begin_alike(text, "ignored")
        || begin_alike(text, "refused")
        || begin_alike(text, "vote refused")
}

/// Whether the line goes on with the text of the line before it.
pub fn goes_on(line: &str) -> bool
    ensures { result ≡ goes_on line.now }
{
    line.as_bytes().starts_with(b"  ")
}
