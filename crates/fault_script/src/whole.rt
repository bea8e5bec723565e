// A whole script.
ghost use Rattle.std.specs.Prelude.{◌≡◌, ◌≤◌, length, true, Ok, IfOk, OnOk, IfErr, MatchResult};
ghost use Rattle.std.specs.List.{list_all};
ghost use Rattle.fault_script.specs.Script.{is_part_for, lines_in, script, sizes_of, with_line, IsCause, StopsLine};
ghost use Rattle.fault_script.specs.Lines.{MOST_LINES};
ghost use Rattle.set_model.specs.Run.{AreSizes};

use crate::fault::{ScriptError, ScriptFault};
use crate::lines::next_line;
use crate::reading::Reading;
use crate::script::Script;
use script_words::LineError;
use std::alloc::Global;

/// The script that some bytes are, or the first faulty line with its first fault from left to right.
///
/// The sizes are lawful. Each command is one of a set of this size, and there are at most 200,000.
pub fn parse(alloc: Global, bytes: &[u8]) -> Result<Script, ScriptError>
    ensures ok { IfOk result (λ read. script bytes.now ≡ Ok read) }
    ensures sizes { IfOk result (λ read. AreSizes (sizes_of read)) }
    ensures fits { IfOk result (λ read. list_all (is_part_for read.nodes) read.parts ≡ true) }
    ensures few { IfOk result (λ read. length (lines_in read.parts) ≤ MOST_LINES) }
    ensures fault { IfErr result (IsCause bytes.now) }
{
    let mut reading = Reading::new(alloc);
    let mut number = 1;
    let mut rest = bytes;
    while !rest.is_empty() {
        let (line, after) = next_line(rest);
        add_line(alloc, &mut reading, number, line)?;
        number += 1;
        rest = after;
    }
    Ok(reading.finish(number)?)
}

/// Adds a line, which has this number.
fn add_line(
    alloc: Global,
    reading: &mut Reading,
    number: u32,
    line: &[u8],
) -> Result<(), ScriptError>
    ensures read { MatchResult result
        (λ _. with_line number reading.old line.now ≡ Ok reading.new)
        (StopsLine number (with_line number reading.old line.now)) }
    ensures few { OnOk result (number ≤ MOST_LINES) }
{
    match reading.add_line(alloc, number, line) {
        Ok(()) => Ok(()),
        Err(LineError::Rule(rule)) => Err(ScriptError::Fault(ScriptFault { line: number, rule })),
        Err(LineError::Memory) => Err(ScriptError::Memory),
    }
}
