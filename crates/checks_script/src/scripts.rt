// Scripts with the text of their first fault, and replies with their texts.
use crate::found::is_text;
use crate::lines::LINES;
use fault_script::{ScriptError, parse};
use rs_optime::OpTime;
use set_model::{Refusal, Reply};
use std::alloc::Global;
use std::fmt::Write;
use std::test::Fail;
use transcript::{write_fault, write_reply};

/// The line that is printed for bytes that aren't a script, or nothing.
fn told(alloc: Global, script: &[u8]) -> Result<String, Fail> {
    let mut text = String::new(alloc);
    match parse(alloc, script) {
        Ok(_) => {}
        Err(ScriptError::Fault(fault)) => write_fault(&fault, &mut text)?,
        Err(ScriptError::Memory) => text.push_str("memory")?,
    }
    Ok(text)
}

/// Fails if another line is printed, and says which.
fn tells(alloc: Global, script: &[u8], line: &str) -> Result<(), Fail> {
    is_text(told(alloc, script)?, line)
}

#[test]
fn the_first_command_is_set(rt: HostRuntime) -> Result<(), Fail> {
    let alloc = rt.alloc();
    tells(alloc, b"", "line 1: NoSetLine\n")?;
    tells(alloc, b"\n# nothing\n", "line 3: NoSetLine\n")?;
    tells(alloc, b"set\t1", "line 1: NoSetLine\n")?;
    tells(alloc, b"set 1\nset 1", "line 2: UnknownCommand\n")?;
    tells(alloc, b"# \xff\nset 1", "line 1: NotUtf8\n")?;
    tells(alloc, b"set 1\r\r\n", "line 1: BadWord\n")?;
    tells(alloc, b"set 1\r", "line 1: BadWord\n")?;
    tells(alloc, b"set 1\r\n\r\n# set\nlog n0", "")
}

/// First lines, each with the fault that is reported, or nothing.
const FIRST_LINES: &str = r#"set 1|
set 7|
set 50|
set 007 01|
set 7 7|
set 3 1|
set 3 2 2|
set 3 2 3|
set 50 7 50|
set 50 1 1|
log n0|NoSetLine
 set 1|NoSetLine
Set 1|NoSetLine
set|WordCount
set 3 2 3 3|WordCount
set 1 |BadWord
set  1|BadWord
set n3|BadWord
set -1|BadWord
set 3 x|BadWord
set 0|BadNumber
set 51|BadNumber
set 4294967297|BadNumber
set 3 0|BadNumber
set 3 4|BadNumber
set 50 8|BadNumber
set 3 2 1|BadNumber
set 3 2 4|BadNumber
set 3 0 3|BadNumber
set 3 2 x|BadWord
set 51 x|BadNumber"#;

#[test]
fn the_first_line_names_the_sizes(rt: HostRuntime) -> Result<(), Fail> {
    for row in FIRST_LINES.lines() {
        if let Some((line, rule)) = row.split_once('|') {
            tells_of(rt.alloc(), "", 1, line, rule)?;
        }
    }
    Ok(())
}

#[test]
fn each_line_has_its_fault(rt: HostRuntime) -> Result<(), Fail> {
    for row in LINES.lines() {
        if let Some((line, rule)) = row.split_once('|') {
            tells_of(rt.alloc(), "set 3 2\n", 2, line, rule)?;
        }
    }
    Ok(())
}

/// Fails if another rule is reported for the line after these first bytes, which has this number.
fn tells_of(alloc: Global, front: &str, number: u32, line: &str, rule: &str) -> Result<(), Fail> {
    let mut script = String::from_str(alloc, front)?;
    script.push_str(line)?;
    let mut text = String::new(alloc);
    if !rule.is_empty() {
        write!(text, "line {number}: {rule}\n")?;
    }
    tells(alloc, script.as_bytes(), &text)
}

#[test]
fn a_value_has_a_hundred_levels(rt: HostRuntime) -> Result<(), Fail> {
    let alloc = rt.alloc();
    tells(
        alloc,
        &padded(alloc, b"set 1\ndelete n0 t ", 100, b'[')?,
        "line 2: BadText 1 Unexpected\n",
    )?;
    tells(
        alloc,
        &padded(alloc, b"set 1\ndelete n0 t ", 101, b'[')?,
        "line 2: BadText 6 TooDeep\n",
    )
}

#[test]
fn blocks_have_their_faults(rt: HostRuntime) -> Result<(), Fail> {
    let alloc = rt.alloc();
    tells(alloc, b"set 1\npar\nend\npar\nthread\nlog n0\nend", "")?;
    tells(alloc, b"set 1\npar\nend\nend", "line 4: StrayLine\n")?;
    tells(alloc, b"set 1\npar\ndrain n9", "line 3: StrayLine\n")?;
    tells(alloc, b"set 1\npar\nset 1", "line 3: UnknownCommand\n")?;
    tells(alloc, b"set 1\npar\npar", "line 3: NestedPar\n")?;
    tells(alloc, b"set 1\npar\nthread\npar x", "line 4: WordCount\n")?;
    tells(alloc, b"set 1\npar\nthread\npar\n", "line 4: NestedPar\n")?;
    tells(alloc, b"set 1\npar", "line 3: OpenPar\n")?;
    tells(alloc, b"set 1\npar\nthread\n", "line 4: OpenPar\n")
}

/// These first bytes, and after them a byte, this many times.
fn padded(alloc: Global, front: &[u8], count: usize, byte: u8) -> Result<Vec<u8>, Fail> {
    let mut script = Vec::from_slice(alloc, front)?;
    let line = Vec::from_elem(alloc, byte, count)?;
    script.extend_from_slice(line.as_slice())?;
    Ok(script)
}

/// `set 1`, and after it a line of this byte, this many times.
fn long(alloc: Global, count: usize, byte: u8) -> Result<Vec<u8>, Fail> {
    padded(alloc, b"set 1\n", count, byte)
}

#[test]
fn lines_have_limits(rt: HostRuntime) -> Result<(), Fail> {
    let alloc = rt.alloc();
    tells(alloc, &long(alloc, 1_048_576, b'#')?, "")?;
    tells(
        alloc,
        &long(alloc, 1_048_577, b'x')?,
        "line 2: LineTooLong\n",
    )?;
    tells(alloc, &long(alloc, 1, 0xff)?, "line 2: NotUtf8\n")?;
    tells(
        alloc,
        &long(alloc, 200_000, b'\n')?,
        "line 200001: TooManyLines\n",
    )
}

/// A block with this many threads.
fn block(alloc: Global, threads: u32) -> Result<Vec<u8>, Fail> {
    let mut script = Vec::from_slice(alloc, b"set 1\npar\n")?;
    for _ in 0..threads {
        script.extend_from_slice(b"thread\n")?;
    }
    script.extend_from_slice(b"end\n")?;
    Ok(script)
}

#[test]
fn a_block_has_at_most_sixteen_threads(rt: HostRuntime) -> Result<(), Fail> {
    let alloc = rt.alloc();
    tells(alloc, &block(alloc, 16)?, "")?;
    tells(alloc, &block(alloc, 17)?, "line 19: TooManyThreads\n")
}

/// The text of a reply to line 7.
fn text_of(alloc: Global, reply: &Reply) -> Result<String, Fail> {
    let mut text = String::new(alloc);
    write_reply(7, reply, &mut text)?;
    Ok(text)
}

#[test]
fn a_write_is_told_with_its_optime(rt: HostRuntime) -> Result<(), Fail> {
    // the timestamp has its seconds in the upper 32 bits
    let at = OpTime {
        term: 1,
        ts: 4_294_967_298,
    };
    is_text(
        text_of(rt.alloc(), &Reply::Written(at))?,
        "7: written 1/1/2\n",
    )
}

#[test]
fn a_refusal_is_told_with_its_number(rt: HostRuntime) -> Result<(), Fail> {
    let reply = Reply::Refused(Refusal::WriteConflict(1));
    is_text(
        text_of(rt.alloc(), &reply)?,
        "7: refused 11 WriteConflict w1\n",
    )
}

#[test]
fn an_old_number_is_told_with_the_last_one(rt: HostRuntime) -> Result<(), Fail> {
    let reply = Reply::Refused(Refusal::OldNumber(2_147_483_647));
    is_text(
        text_of(rt.alloc(), &reply)?,
        "7: refused 32 OldNumber 2147483647\n",
    )
}
