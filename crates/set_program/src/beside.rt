// A job beside what the caller does, on a thread of its own or after it.

use std::thread::{Threads, join};

/// What a thread does once.
pub trait Job {
    type End;

    // When it may be done.
    ghost ready: { Self → Type 0 };

    // What it results in.
    ghost ends: { Self → Self.End → Type 0 };

    fn run(self) -> Self::End
        requires { ready self }
        ensures { ends self result };
}

/// Does the job on a thread of its own, if that is wanted, and the rest in this one. If no thread is wanted,
/// or none can be started, the job is done last.
pub fn beside<R: Threads, J: Job<End = E> + Send + Drop, F: FnOnce() -> B, E: Send, B>(
    rt: &R,
    wants_thread: bool,
    job: J,
    rest: F,
) -> (E, B)
    requires job { J.ready job }
    requires rest { F.pre rest }
    ensures job { J.ends job result.0 }
    ensures rest { F.post rest result.1 }
{
    if !wants_thread {
        let others = rest();
        return (job.run(), others);
    }
    join(
        rt,
        move || -> E
            requires { J.ready job }
            ensures { J.ends job result }
        { job.run() },
        rest,
    )
}
