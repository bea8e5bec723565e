// Traces a run, and checks the trace.
use crate::running::{NOTHING, ended};
use std::test::Fail;

const TRACE: &[&str] = &["trace"];

const CHECK: &[&str] = &["check"];

const SCRIPT: &str = "set 1\ncampaign n0\ndrain n0\ninsert n0 t {_id: 1}\nread n0 local t 1\n";

const TRACED: &str = "trace 1 1 1
event 2 - 0 campaign n0
2: won 1
event 3 - 0 drain n0
3: primary 1 noop 1/0/1
event 4 - 0 insert n0 t {_id: 1}
4: written 1/0/2
event 5 - 0 read n0 local t 1
5: found {_id: 1}
";

/// The same run, with another reply in one place.
const ANSWERED_OTHERWISE: &str = "trace 1 1 1\nevent 2 - 0 campaign n0\n2: won 2\n";

#[test]
fn a_run_is_traced_and_checked(rt: HostRuntime) -> Result<(), Fail> {
    let alloc = rt.alloc();
    for (words, input, status, put) in [
        (TRACE, SCRIPT, 0, TRACED),
        (CHECK, TRACED, 0, "yes 4\n"),
        (CHECK, ANSWERED_OTHERWISE, 10, "line 3: OtherReply\n"),
    ] {
        let (ended_so, told) = ended(&rt, alloc, words, input, NOTHING)?;
        assert_eq!(rt; ended_so, status, "{input}");
        assert!(rt; told.as_str() == put, "{told}");
    }
    Ok(())
}
