//! Prints the script that `replset chaos SEED EVENTS NODES` plays: `seed_script SEED EVENTS NODES`.
#![tactic(auto)]

use std::env;
use std::io::Write;
use std::process::ExitCode;
use task_words::read_wanted;

/// The status of a run out of memory.
const NO_MEMORY: u8 = 1;

/// The status of a run whose words ask for no script.
const BAD_WORDS: u8 = 2;

/// The status of a run whose output is lost.
const OUTPUT_FAILED: u8 = 5;

fn main(rt: HostRuntime) -> ExitCode {
    let Ok(args) = env::args(&rt) else {
        return ExitCode::from(NO_MEMORY);
    };
    let words: Result<Vec<String>, _> = args.skip(1).collect(rt.alloc());
    let Ok(words) = words else {
        return ExitCode::from(NO_MEMORY);
    };
    let mut out = rt.stdout();
    let wanted = match words.as_slice() {
        [seed, events, nodes] => read_wanted(seed.as_str(), events.as_str(), nodes.as_str()),
        _ => None,
    };
    let Some(wanted) = wanted else {
        let told = out.write_all(b"usage: seed_script SEED EVENTS NODES\n");
        return ExitCode::from(if told.is_ok() {
            BAD_WORDS
        } else {
            OUTPUT_FAILED
        });
    };
    let Ok(script) = fault_script::generate(rt.alloc(), wanted.seed, wanted.events, wanted.nodes)
    else {
        return ExitCode::from(NO_MEMORY);
    };
    match out.write_all(&script) {
        Ok(()) => ExitCode::SUCCESS,
        Err(_) => ExitCode::from(OUTPUT_FAILED),
    }
}
