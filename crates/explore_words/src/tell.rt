// A question's fault as it is printed.
ghost use Rattle.std.specs.Prelude.{◌≡◌, ◌++◌, OnOk, OnErr, string_bytes};
ghost use Rattle.explore_words.specs.Faults.{named_text, question_fault_text};

use crate::fault::{QuestionFault, QuestionRule};
use bson_doc::Mem;
use fault_script::ScriptFault;
use std::fmt::Write;
use transcript::write_fault;

/// Appends the line that is printed for a question that is none. Out of memory leaves `out` as it was.
pub fn write_question_fault(fault: &QuestionFault, out: &mut String) -> Mem<()>
    ensures ok { OnOk result (string_bytes out.new ≡ string_bytes out.old ++ question_fault_text fault.now) }
    ensures err { OnErr result (string_bytes out.new ≡ string_bytes out.old) }
{
    let line = fault.line;
    match fault.rule {
        QuestionRule::Script(rule) => write_fault(&ScriptFault { line, rule }, out),
        QuestionRule::NoMayLine => write_named(line, "NoMayLine", out),
        QuestionRule::NoWantLine => write_named(line, "NoWantLine", out),
        QuestionRule::BadAct => write_named(line, "BadAct", out),
        QuestionRule::BadWant => write_named(line, "BadWant", out),
        QuestionRule::TooManyActs => write_named(line, "TooManyActs", out),
        QuestionRule::TooManyWants => write_named(line, "TooManyWants", out),
    }
}

fn write_named(line: u32, rule: &str, out: &mut String) -> Mem<()>
    ensures ok { OnOk result (string_bytes out.new ≡ string_bytes out.old ++ named_text line rule.now) }
    ensures err { OnErr result (string_bytes out.new ≡ string_bytes out.old) }
{
    let mut text = String::new(*out.allocator());
    write!(text, "line {line}")?;
    text.push_str(": ")?;
    text.push_str(rule)?;
    text.push_str("\n")?;
    out.push_str(&text)
}
