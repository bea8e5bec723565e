// The summary of a run.
ghost use Rattle.std.specs.Prelude.{◌≡◌, ◌≤◌, IfOk, length, map};
ghost use Rattle.set_model.specs.Run.{run};
ghost use Rattle.set_world.specs.World.{nodes_in};
ghost use Rattle.transcript.specs.Summaries.{count_of, points_of, summary_of};
ghost use Rattle.set_program.specs.Kinds.{is_of};
ghost use Rattle.fault_script.specs.Lines.{MOST_LINES};

use bson_doc::Mem;
use node_core::Node;
use rs_disk::Disk;
use set_model::Reply;
use set_world::World;
use std::alloc::Global;
use transcript::{NodePoints, Summary};

/// The replies that a summary counts.
#[derive(Clone, Copy)]
enum Kind {
    Written,
    Won,
    RolledBack,
    Refused,
}

impl Kind {
    #[tactic(auto, unfolding(transcript::specs::Summaries::is_written, transcript::specs::Summaries::is_won, transcript::specs::Summaries::is_rolled_back, transcript::specs::Summaries::is_refused))]
    fn has(self, reply: &Reply) -> bool
        ensures { result ≡ is_of self reply.now }
    {
        match self {
            Kind::Written => matches!(reply, Reply::Written(_)),
            Kind::Won => matches!(reply, Reply::Won(_)),
            Kind::RolledBack => matches!(reply, Reply::RolledBack { .. }),
            Kind::Refused => matches!(reply, Reply::Refused(_)),
        }
    }
}

/// The summary of a set's run, given its replies.
pub fn summary<D: Disk>(alloc: Global, replies: &[(u32, Reply)], world: &World<D>) -> Mem<Summary>
    requires few { length replies.now ≤ MOST_LINES }
    requires told { replies.now ≡ (run world.now.sizes world.now.history).replies }
    ensures { IfOk result (λ summary. summary ≡ summary_of (run world.now.sizes world.now.history)) }
{
    Ok(Summary {
        events: replies.len() as u32,
        written: count(replies, Kind::Written),
        won: count(replies, Kind::Won),
        rolled_back: count(replies, Kind::RolledBack),
        refused: count(replies, Kind::Refused),
        nodes: points(alloc, world.nodes())?,
    })
}

/// How many replies are of a kind.
fn count(replies: &[(u32, Reply)], kind: Kind) -> u32
    requires { length replies.now ≤ MOST_LINES }
    ensures { result ≡ count_of (is_of kind) replies.now }
{
    let mut count = 0;
    for line in replies {
        if kind.has(&line.1) {
            count += 1;
        }
    }
    count
}

fn points<D: Disk>(alloc: Global, nodes: &[Node<D>]) -> Mem<NodePoints>
    ensures { IfOk result (λ points. points ≡ map points_of (nodes_in nodes.now)) }
{
    let mut points = NodePoints::new(alloc);
    for node in nodes {
        points.push(node.points())?;
    }
    Ok(points)
}
