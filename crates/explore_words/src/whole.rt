// A whole question.
ghost use Rattle.std.specs.Prelude.{◌≡◌, ◌≤◌, true, Ok, IfOk, IfErr, MatchResult, OnOk};
ghost use Rattle.fault_script.specs.Lines.{MOST_LINES};
ghost use Rattle.set_model.specs.Run.{AreSizes};
ghost use Rattle.explore_words.specs.Fits.{fits_set, sizes_of};
ghost use Rattle.explore_words.specs.Question.{IsCause, StopsLine, question, whole, with_line};

use crate::fault::{QuestionError, QuestionFault, Stop};
use crate::question::Question;
use crate::reading::Reading;
use fault_script::next_line;
use std::alloc::Global;

/// The question that some bytes are, or the first faulty line with its first fault.
///
/// The sizes are lawful. Each command is one of a set of so many nodes, and each look within its
/// bounds. There are as many acts, lines and wants as a question may have, and no event has a text that
/// it may not have.
pub fn parse_question(alloc: Global, bytes: &[u8]) -> Result<Question, QuestionError>
    ensures ok { IfOk result (λ read. question bytes.now ≡ Ok read) }
    ensures sizes { IfOk result (λ read. AreSizes (sizes_of read)) }
    ensures fits { IfOk result (λ read. fits_set read ≡ true) }
    ensures fault { IfErr result (IsCause bytes.now) }
{
    let mut reading = Reading::new(alloc);
    let mut number = 1;
    let mut rest = bytes;
    while !rest.is_empty() {
        let (line, after) = next_line(rest);
        add_line(alloc, &mut reading, number, line)?;
        number += 1;
        rest = after;
    }
    let question = finish(alloc, reading, number)?;
    Ok(question)
}

/// Adds a line, which has this number.
fn add_line(
    alloc: Global,
    reading: &mut Reading,
    number: u32,
    line: &[u8],
) -> Result<(), QuestionError>
    ensures read { MatchResult result
        (λ _. with_line number reading.old line.now ≡ Ok reading.new)
        (StopsLine number (with_line number reading.old line.now)) }
    ensures few { OnOk result (number ≤ MOST_LINES) }
{
    match reading.add_line(alloc, number, line) {
        Ok(()) => Ok(()),
        Err(Stop::Rule(rule)) => Err(QuestionError::Fault(QuestionFault { line: number, rule })),
        Err(Stop::Memory) => Err(QuestionError::Memory),
    }
}

/// The question, once all its lines are added; `number` is one more than that of the last.
fn finish(alloc: Global, reading: Reading, number: u32) -> Result<Question, QuestionError>
    ensures { MatchResult result
        (λ question. whole reading reading.set ≡ Ok question)
        (StopsLine number (whole reading reading.set)) }
{
    match reading.finish(alloc) {
        Ok(question) => Ok(question),
        Err(Stop::Rule(rule)) => Err(QuestionError::Fault(QuestionFault { line: number, rule })),
        Err(Stop::Memory) => Err(QuestionError::Memory),
    }
}
