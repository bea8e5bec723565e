// The words of a line, each with what is left of the line after it.
ghost use Rattle.std.specs.Prelude.{◌≡◌, ◌<◌, Ok, Some};
ghost use Rattle.std.specs.Char.{is_ascii_digit};
ghost use Rattle.std.specs.List.{list_all, count_by, position};
ghost use Rattle.std.specs.Option.{option_copied};
ghost use Rattle.set_model.specs.Limits.{is_collection, is_name_byte};
ghost use Rattle.script_words.specs.declared.rule.ScriptRule.TheVariants.{BadWord};
ghost use Rattle.script_words.specs.Gives.{Reads};
ghost use Rattle.script_words.specs.Words.{is_space, after_word, skip, word_count, has_shape, word_at, number_of, numbered, number_at, optional_at, pick_at, node_at, other_node_at, writer_at, message_at, collection_at};

use crate::rule::ScriptRule;
use crate::shape::Shape;

/// What is left of a line: what follows the last space, or nothing after the last word.
pub type Left<'a> = Option<&'a str>;

/// What was read of a line, and what is left after it.
pub type Read<'a, T> = Result<(T, Left<'a>), ScriptRule>;

/// What is left after the next word.
pub fn after_word(left: Left<'_>) -> Left<'_>
    ensures { option_copied result ≡ after_word (option_copied left.entry) }
{
    match word(left) {
        Ok((_, rest)) => rest,
        Err(_) => None,
    }
}

/// What is left after this many words.
fn skip(left: Left<'_>, words: u32) -> Left<'_>
    ensures { option_copied result ≡ skip words (option_copied left.entry) }
{
    let mut rest = left;
    for _ in 0..words {
        rest = after_word(rest);
    }
    rest
}

/// How many words are left.
fn word_count(left: Left<'_>) -> usize
    ensures { result ≡ word_count (option_copied left.entry) }
{
    match left {
        Some(text) => space_count(text) + 1,
        None => 0,
    }
}

fn space_count(text: &str) -> usize
    ensures { result ≡ count_by is_space text.now }
{
    text.as_bytes().iter().filter(|byte| **byte == b' ').count()
}

/// Whether a line has as many words after its first one as its form asks for.
pub fn has_shape(left: Left<'_>, shape: Shape) -> bool
    ensures { result ≡ has_shape shape (option_copied left.entry) }
{
    match shape {
        Shape::Words { least, most } => {
            let count = word_count(left);
            least as usize <= count && count <= most as usize
        }
        Shape::Value { before } => match skip(left, before) {
            Some(rest) => !rest.is_empty(),
            None => false,
        },
    }
}

/// The place of the first space. Words are short, so the bytes are tested one by one.
fn first_space(text: &str) -> Option<usize>
    ensures { result ≡ position is_space text.now }
{
    text.as_bytes().iter().position(|byte| *byte == b' ')
}

/// The word up to the first space, or the whole text.
fn first_word(text: &str) -> (&str, Left<'_>)
    ensures { word_at (Some text.now) ≡ Ok (result.0.now, option_copied result.1) }
{
    match first_space(text) {
        Some(end) => (&text[..end], Some(&text[end + 1..])),
        None => (text, None),
    }
}

/// The word up to the next space, or up to the line's end.
#[tactic(auto, unfolding(crate::specs::Words::word_at))]
pub fn word(left: Left<'_>) -> Read<'_, &str>
    ensures { Reads (λ x. (x.0.now, option_copied x.1)) result (word_at (option_copied left.entry)) }
{
    match left {
        Some(text) => Ok(first_word(text)),
        None => Err(ScriptRule::WordCount),
    }
}

fn are_digits(word: &str) -> bool
    ensures { result ≡ list_all is_ascii_digit word.now }
{
    word.as_bytes().iter().all(|byte| byte.is_ascii_digit())
}

/// A number in a range; words that aren't numbers break the rule `form`, and other numbers the rule `range`.
pub fn number_of(
    word: &str,
    least: u32,
    most: u32,
    form: ScriptRule,
    range: ScriptRule,
) -> Result<u32, ScriptRule>
    ensures { result ≡ number_of form range least most word.now }
{
    if word.is_empty() || !are_digits(word) {
        return Err(form);
    }
    let Ok(number) = word.parse::<u32>() else {
        return Err(range);
    };
    if least <= number && number <= most {
        Ok(number)
    } else {
        Err(range)
    }
}

/// Any number below 2^64; `form` and `range` as in `number_of`.
pub fn long_of(word: &str, form: ScriptRule, range: ScriptRule) -> Result<u64, ScriptRule>
    ensures { result ≡ number_of form range 0 18446744073709551615 word.now }
{
    if word.is_empty() || !are_digits(word) {
        return Err(form);
    }
    match word.parse::<u64>() {
        Ok(number) => Ok(number),
        Err(_) => Err(range),
    }
}

/// A letter and a number of at most `most`.
fn numbered(word: &str, letter: char, most: u32, rule: ScriptRule) -> Result<u32, ScriptRule>
    requires { letter < 128 }
    ensures { result ≡ numbered rule letter most word.now }
{
    match word.strip_prefix(letter) {
        Some(digits) => number_of(digits, 0, most, rule, rule),
        None => Err(rule),
    }
}

/// A number in a range.
#[tactic(auto, unfolding(crate::specs::Words::number_at))]
pub fn number(left: Left<'_>, least: u32, most: u32) -> Read<'_, u32>
    ensures { Reads (λ x. (x.0, option_copied x.1)) result (number_at least most (option_copied left.entry)) }
{
    let (word, rest) = word(left)?;
    let number = number_of(
        word,
        least,
        most,
        ScriptRule::BadWord,
        ScriptRule::BadNumber,
    )?;
    Ok((number, rest))
}

/// Any number of 64 bits.
#[tactic(auto, unfolding(crate::specs::Words::number_at))]
fn long_number(left: Left<'_>) -> Read<'_, u64>
    ensures { Reads (λ x. (x.0, option_copied x.1)) result
        (number_at 0 18446744073709551615 (option_copied left.entry)) }
{
    let (word, rest) = word(left)?;
    let number = long_of(word, ScriptRule::BadWord, ScriptRule::BadNumber)?;
    Ok((number, rest))
}

/// A number in a range, or `default` if no word is left.
pub fn optional(left: Left<'_>, default: u32, least: u32, most: u32) -> Read<'_, u32>
    ensures { Reads (λ x. (x.0, option_copied x.1)) result
        (optional_at default least most (option_copied left.entry)) }
{
    match left {
        Some(_) => number(left, least, most),
        None => Ok((default, None)),
    }
}

/// Any number, or none if no word is left.
#[tactic(auto, unfolding(crate::specs::Words::pick_at))]
pub fn pick(left: Left<'_>) -> Read<'_, Option<u64>>
    ensures { Reads (λ x. (x.0, option_copied x.1)) result (pick_at (option_copied left.entry)) }
{
    if left.is_none() {
        return Ok((None, None));
    }
    let (pick, rest) = long_number(left)?;
    Ok((Some(pick), rest))
}

/// `n` and a number: a node of a set of this size.
#[tactic(auto, unfolding(crate::specs::Words::node_at))]
pub fn node(left: Left<'_>, nodes: u32) -> Read<'_, u32>
    ensures { Reads (λ x. (x.0, option_copied x.1)) result (node_at nodes (option_copied left.entry)) }
{
    let (word, rest) = word(left)?;
    let number = numbered(word, 'n', u32::MAX, ScriptRule::BadNode)?;
    if number < nodes {
        Ok((number, rest))
    } else {
        Err(ScriptRule::BadNode)
    }
}

/// A node other than this one.
#[tactic(auto, unfolding(crate::specs::Words::other_node_at))]
pub fn other_node(left: Left<'_>, nodes: u32, first: u32) -> Read<'_, u32>
    ensures { Reads (λ x. (x.0, option_copied x.1)) result
        (other_node_at nodes first (option_copied left.entry)) }
{
    let (other, rest) = node(left, nodes)?;
    if other == first {
        Err(ScriptRule::BadNode)
    } else {
        Ok((other, rest))
    }
}

/// `w` and a number: a writer.
#[tactic(auto, unfolding(crate::specs::Words::writer_at))]
pub fn writer(left: Left<'_>) -> Read<'_, u32>
    ensures { Reads (λ x. (x.0, option_copied x.1)) result (writer_at (option_copied left.entry)) }
{
    let (word, rest) = word(left)?;
    Ok((numbered(word, 'w', 999, ScriptRule::BadWord)?, rest))
}

/// `m` and a number: a message.
#[tactic(auto, unfolding(crate::specs::Words::message_at))]
pub fn message(left: Left<'_>) -> Read<'_, u64>
    ensures { Reads (λ x. (x.0, option_copied x.1)) result (message_at (option_copied left.entry)) }
{
    let (word, rest) = word(left)?;
    Ok((message_of(word)?, rest))
}

fn message_of(word: &str) -> Result<u64, ScriptRule>
    ensures { result ≡ numbered BadWord 109 18446744073709551615 word.now }
{
    match word.strip_prefix('m') {
        Some(digits) => long_of(digits, ScriptRule::BadWord, ScriptRule::BadWord),
        None => Err(ScriptRule::BadWord),
    }
}

/// A collection's name.
#[tactic(auto, unfolding(crate::specs::Words::collection_at))]
pub fn collection(left: Left<'_>) -> Read<'_, &str>
    ensures { Reads (λ x. (x.0.now, option_copied x.1)) result (collection_at (option_copied left.entry)) }
{
    let (word, rest) = word(left)?;
    if is_collection(word.as_bytes()) {
        Ok((word, rest))
    } else {
        Err(ScriptRule::BadWord)
    }
}

/// Whether it is a collection's name: a letter, and then up to 63 letters, digits, `_` and `.`.
pub fn is_collection(name: &[u8]) -> bool
    ensures { result ≡ is_collection name.now }
{
    match name {
        [first, others @ ..] => {
            first.is_ascii_alphabetic() && others.len() < 64 && are_name_bytes(others)
        }
        [] => false,
    }
}

fn are_name_bytes(bytes: &[u8]) -> bool
    ensures { result ≡ list_all is_name_byte bytes.now }
{
    bytes.iter().all(|byte| is_name_byte(*byte))
}

fn is_name_byte(byte: u8) -> bool
    ensures { result ≡ is_name_byte byte }
{
    byte.is_ascii_alphanumeric() || byte == b'_' || byte == b'.'
}
