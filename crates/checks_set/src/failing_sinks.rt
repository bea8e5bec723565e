// Sinks and a source that fail in one of their calls.
use crate::failing_disks::TWO_LOST;
use crate::running::{Failing, NOTHING, RUN, WRITTEN, ended};
use std::alloc::Global;
use std::sync::Wait;
use std::test::Fail;
use std::thread::Threads;

const WON: &str = "2: won 1\n";

const DRAINED: &str = "3: primary 1 noop 1/0/1\n";

const INSERTED: &str = "4: written 1/0/2\n";

const FLUSHED: &str = "5: flushed 2 to 1/0/2\n";

/// Words, a script, and what each call of the sink gets.
type IntoSink = (
    &'static [&'static str],
    &'static str,
    &'static [&'static str],
);

const SINKS: [IntoSink; 7] = [
    (
        RUN,
        "set 1\ncampaign n0\ndrain n0\nlog n0\ncrash n0",
        &[
            WON,
            DRAINED,
            "4: entries 1\n  1/0/1 n {msg: \"new primary\"}\n",
            "5: down\n",
        ],
    ),
    (
        RUN,
        TWO_LOST,
        &[
            "2: candidate 1 sent m0 2\n",
            "3: replied m2\n",
            "4: won 1\n",
            "5: primary 1 noop 1/0/1\n",
            "6: sent m3\n",
            "7: replied m4\n",
            "8: sent m5 to n0\n",
            "9: replied m6\n",
            "10: took 1 last 1/0/1\n",
            "11: written 1/0/2\n",
            "12: written 1/0/3\n",
            "13: candidate 2 sent m7 2\n",
            "14: replied m9\n",
            "15: won 2\n",
            "16: primary 2 noop 2/0/2\n",
            "17: sent m10\n",
            "18: replied m11\n",
            "19: rolled back to 1/0/1 removed 2\n",
            "20: documents 2\n  t {_id: 1}\n  t {_id: 2}\n",
            "21: refused 30 NotDown\n",
            "22: entries 1\n  1/0/1 n {msg: \"new primary\"}\n",
            "23: refused 30 NotDown\n",
            "24: entries 2\n  1/0/1 n {msg: \"new primary\"}\n  2/0/2 n {msg: \"new primary\"}\n",
            "25: refused 30 NotDown\n",
            "26: entries 0\n",
        ],
    ),
    (
        RUN,
        "set 1\npar\nthread\ncampaign n0\ndrain n0\nclock n0 7\nend\n",
        &["4: won 1\n", "5: primary 1 noop 1/0/1\n", "6: clock 7\n"],
    ),
    (
        &["watch", "t", "start", "n0"],
        WRITTEN,
        &[
            WON,
            DRAINED,
            INSERTED,
            FLUSHED,
            "change 00000000000000010000000000000002 insert t {_id: 1}\n",
            "resume 00000000000000010000000000000002\n",
        ],
    ),
    (
        &["linear", "n0", "t", "1"],
        WRITTEN,
        &[WON, DRAINED, INSERTED, FLUSHED, "linear found {_id: 1}\n"],
    ),
    (
        &["sync", "n0"],
        WRITTEN,
        &[
            WON,
            DRAINED,
            INSERTED,
            FLUSHED,
            "synced n1 to 1/0/2 entries 2 documents 1\n  t {_id: 1}\n",
        ],
    ),
    (
        &["chaos", "1", "0", "1"],
        "",
        &["events 0\nwritten 0\nwon 0\nrolled back 0\nrefused 0\nn0 last 0/0/0 commit 0/0/0\n"],
    ),
];

/// Whether the first call that fails ends the run, with the output of the calls before it. After the last
/// call there is none to fail.
fn is_borne<R: Threads + Wait + Sync>(rt: &R, alloc: Global, into: IntoSink) -> Result<bool, Fail> {
    let (words, script, told) = into;
    let mut put = String::new(alloc);
    let mut call = 1_u32;
    for reply in told {
        let failing = Failing {
            sink: &[call],
            ..NOTHING
        };
        let (status, before) = ended(rt, alloc, words, script, failing)?;
        if status != 5 || before != put {
            return Ok(false);
        }
        put.push_str(reply)?;
        call = call.saturating_add(1);
    }
    let failing = Failing {
        sink: &[call],
        ..NOTHING
    };
    let (status, all) = ended(rt, alloc, words, script, failing)?;
    Ok(status == 0 && all == put)
}

#[test]
fn a_sink_that_fails_ends_the_run(rt: HostRuntime) -> Result<(), Fail> {
    for into in SINKS {
        assert!(rt; is_borne(&rt, rt.alloc(), into)?, "{}", into.1);
    }
    Ok(())
}

#[test]
fn a_source_that_fails_is_a_read_fault(rt: HostRuntime) -> Result<(), Fail> {
    let failing = Failing {
        source: &[1],
        ..NOTHING
    };
    let (status, put) = ended(&rt, rt.alloc(), RUN, WRITTEN, failing)?;
    assert_eq!(rt; status, 4);
    assert!(rt; put.is_empty());
    Ok(())
}
