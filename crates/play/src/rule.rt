// Why a line isn't done.
ghost use Rattle.std.specs.Prelude.{◌≡◌, ◌++◌, OnOk, string_bytes};
ghost use Rattle.play.specs.Lines.{bad_line_text, own_name};

use bson_doc::Mem;
use fault_script::{ScriptFault, ScriptRule};
use script_words::LineError;
use std::alloc::AllocError;
use transcript::{write_fault, write_number};

/// The rule by which a line isn't done.
#[derive(Clone, Copy, Debug, PartialEq, Eq)]
pub enum LineRule {
    /// The line breaks a rule of scripts.
    Script(ScriptRule),
    /// There is a line feed in it.
    LineFeed,
    /// It lets a disk fail, and there are none.
    NoDisks,
    /// It begins or ends a block or a thread of one, and there are none.
    NoBlocks,
    /// It does more than to look at something, where it may not.
    NoQuestion,
}

/// Why nothing was done.
#[derive(Clone, Copy, Debug, PartialEq, Eq)]
pub enum PlayError {
    /// The first rule that the line breaks.
    Rule(LineRule),
    /// Out of memory.
    Memory,
}

impl From<LineRule> for PlayError {
    ghost use Rattle.play.specs.declared.rule.PlayError.TheVariants.{Rule};

    ghost from_gives = { λ rule error. error ≡ Rule rule };

    fn from(rule: LineRule) -> Self {
        PlayError::Rule(rule)
    }
}

impl From<ScriptRule> for PlayError {
    ghost use Rattle.play.specs.declared.rule.LineRule.TheVariants.{Script};
    ghost use Rattle.play.specs.declared.rule.PlayError.TheVariants.{Rule};

    ghost from_gives = { λ rule error. error ≡ Rule (Script rule) };

    fn from(rule: ScriptRule) -> Self {
        PlayError::Rule(LineRule::Script(rule))
    }
}

impl From<LineError> for PlayError {
    ghost use Rattle.play.specs.Lines.{play_error};

    ghost from_gives = { λ line_error error. error ≡ play_error line_error };

    fn from(error: LineError) -> Self {
        match error {
            LineError::Rule(rule) => PlayError::Rule(LineRule::Script(rule)),
            LineError::Memory => PlayError::Memory,
        }
    }
}

impl From<AllocError> for PlayError {
    ghost use Rattle.play.specs.declared.rule.PlayError.TheVariants.{Memory};

    ghost from_gives = { λ _ error. error ≡ Memory };

    fn from(_: AllocError) -> Self {
        PlayError::Memory
    }
}

/// Appends what is said of a bad line of this number, as of a script's first faulty line. After out of memory
/// a part may be appended.
pub fn write_bad_line(line: u32, rule: LineRule, out: &mut String) -> Mem<()>
    ensures { OnOk result (string_bytes out.new ≡ string_bytes out.old ++ bad_line_text line rule) }
{
    match rule {
        LineRule::Script(rule) => write_fault(&ScriptFault { line, rule }, out),
        LineRule::LineFeed => write_own(line, "LineFeed", out),
        LineRule::NoDisks => write_own(line, "NoDisks", out),
        LineRule::NoBlocks => write_own(line, "NoBlocks", out),
        LineRule::NoQuestion => write_own(line, "NoQuestion", out),
    }
}

fn write_own(line: u32, name: &str, out: &mut String) -> Mem<()>
    ensures { OnOk result (string_bytes out.new ≡ string_bytes out.old ++ own_name line name.now) }
{
    out.push_str("line ")?;
    write_number(u64::from(line), out)?;
    out.push_str(": ")?;
    out.push_str(name)?;
    out.push_str("\n")
}
