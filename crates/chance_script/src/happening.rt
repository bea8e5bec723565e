// What happens at an event of a generated script, and its lines.
ghost use Rattle.std.specs.Prelude.{◌≡◌, ◌≤◌, ◌<◌, ◌++◌, OnOk, string_bytes};
ghost use Rattle.chance_script.specs.Generated.{ask, ask_with, drawn, happening, of_kind, other_node, taken_text, told_text, text_of, vote_of, votes_of};

use bson_doc::Mem;
use rand_core::utils::NextWord;
use rand_pcg::Pcg32;
use std::fmt::Write;

/// An event. Nodes are given by their numbers.
#[derive(Clone, Copy)]
pub enum Happening {
    /// The node inserts the document of this `_id`.
    Insert(u32, u32),
    /// The node updates the document of this `_id`.
    Update(u32, u32),
    /// It deletes the document of this `_id`.
    Delete(u32, u32),
    /// It writes its log to the journal.
    Flush(u32),
    /// The node takes what it lacks from the other, applies and stores it, and reports.
    Pull(u32, u32),
    /// It campaigns, and each other node hears of it.
    Election(u32),
    /// It asks the other for common entries.
    Common(u32, u32),
    /// It makes a checkpoint.
    Checkpoint(u32),
    /// It crashes and comes back.
    Restart(u32),
    /// It steps down.
    StepDown(u32),
    /// Its clock is set to this second.
    Clock(u32, u32),
}

/// Draws the event of this number in a set of this size.
#[tactic(auto, unfolding(crate::specs::Generated::happening))]
pub fn draw(generator: &mut Pcg32, nodes: u32, event: u32) -> Happening
    requires some { 1 ≤ nodes }
    requires few { event < 5000 }
    ensures { (result, generator.new) ≡ happening nodes event generator.old }
{
    let kind = draw_below(generator, 16);
    let node = draw_below(generator, nodes);
    let other = draw_other(generator, nodes, node);
    of_kind(generator, kind, event, node, other)
}

/// A number below a limit.
fn draw_below(generator: &mut Pcg32, count: u32) -> u32
    requires { 1 ≤ count }
    ensures drawn { (result, generator.new) ≡ drawn count generator.old }
    ensures below { result < count }
{
    generator.next_word() % count
}

/// Another node, if there is one.
fn draw_other(generator: &mut Pcg32, nodes: u32, node: u32) -> Option<u32>
    requires { node < nodes }
    ensures { (result, generator.new) ≡ other_node nodes node generator.old }
{
    if nodes <= 1 {
        return None;
    }
    let step = draw_below(generator, nodes - 1);
    // There are few nodes, so no sum overflows 64 bits.
    let place = (u64::from(node) + 1 + u64::from(step)) % u64::from(nodes);
    Some(place as u32)
}

fn of_kind(generator: &mut Pcg32, kind: u32, event: u32, node: u32, other: Option<u32>) -> Happening
    requires { event < 5000 }
    ensures { (result, generator.new) ≡ of_kind kind event node other generator.old }
{
    match kind {
        0..=3 => Happening::Insert(node, event),
        4 => Happening::Update(node, draw_below(generator, event + 1)),
        5 => Happening::Delete(node, draw_below(generator, event + 1)),
        6 => Happening::Flush(node),
        7..=9 => other.map_or(
            Happening::Flush(node),
            |source| Happening::Pull(node, source),
        ),
        10 => Happening::Election(node),
        11 => other.map_or(
            Happening::Flush(node),
            |other| Happening::Common(node, other),
        ),
        12 => Happening::Checkpoint(node),
        13 => Happening::Restart(node),
        14 => Happening::StepDown(node),
        _ => Happening::Clock(node, draw_below(generator, 1000)),
    }
}

impl Happening {
    /// Appends its lines, in a set of this size.
    #[tactic(auto, unfolding(crate::specs::Generated::text_of))]
    pub fn write(&self, nodes: u32, out: &mut String) -> Mem<()>
        ensures { OnOk result (string_bytes out.new ≡ string_bytes out.old ++ text_of nodes self.now) }
    {
        match *self {
            Happening::Insert(node, id) => write_insert(node, id, out),
            Happening::Update(node, id) => write_update(node, id, out),
            Happening::Delete(node, id) => write_delete(node, id, out),
            Happening::Flush(node) => ask("flush", node, "", out),
            Happening::Pull(node, source) => write_pull(node, source, out),
            Happening::Election(node) => write_election(nodes, node, out),
            Happening::Common(node, other) => write_common(node, other, out),
            Happening::Checkpoint(node) => ask("checkpoint", node, "", out),
            Happening::Restart(node) => write_restart(node, out),
            Happening::StepDown(node) => ask("stepdown", node, "", out),
            Happening::Clock(node, seconds) => write_clock(node, seconds, out),
        }
    }
}

/// `WORD A` and what follows it.
fn ask(word: &str, node: u32, after: &str, out: &mut String) -> Mem<()>
    ensures { OnOk result (string_bytes out.new ≡ string_bytes out.old ++ ask word.now node after.now) }
{
    out.push_str(word)?;
    write!(out, " n{node}")?;
    out.push_str(after)?;
    out.push_str("\n")
}

/// `WORD A B`
fn ask_with(word: &str, node: u32, other: u32, out: &mut String) -> Mem<()>
    ensures { OnOk result (string_bytes out.new ≡ string_bytes out.old ++ ask_with word.now node other) }
{
    out.push_str(word)?;
    write!(out, " n{node}")?;
    write!(out, " n{other}\n")
}

#[tactic(auto, unfolding(crate::specs::Generated::text_of))]
fn write_insert(node: u32, id: u32, out: &mut String) -> Mem<()>
    ensures { OnOk result
        (string_bytes out.new ≡ string_bytes out.old ++ text_of 0 (Happening.Insert node id)) }
{
    write!(out, "insert n{node}")?;
    write!(out, " t {{_id: {id}, n: 0}}\n")
}

#[tactic(auto, unfolding(crate::specs::Generated::text_of))]
fn write_update(node: u32, id: u32, out: &mut String) -> Mem<()>
    ensures { OnOk result
        (string_bytes out.new ≡ string_bytes out.old ++ text_of 0 (Happening.Update node id)) }
{
    write!(out, "update n{node}")?;
    write!(out, " t {id} {{$inc: {{n: 1}}}}\n")
}

#[tactic(auto, unfolding(crate::specs::Generated::text_of))]
fn write_delete(node: u32, id: u32, out: &mut String) -> Mem<()>
    ensures { OnOk result
        (string_bytes out.new ≡ string_bytes out.old ++ text_of 0 (Happening.Delete node id)) }
{
    write!(out, "delete n{node}")?;
    write!(out, " t {id}\n")
}

#[tactic(auto, unfolding(crate::specs::Generated::text_of))]
fn write_clock(node: u32, seconds: u32, out: &mut String) -> Mem<()>
    ensures { OnOk result
        (string_bytes out.new ≡ string_bytes out.old ++ text_of 0 (Happening.Clock node seconds)) }
{
    write!(out, "clock n{node}")?;
    write!(out, " {seconds}\n")
}

#[tactic(auto, unfolding(crate::specs::Generated::text_of))]
fn write_pull(node: u32, source: u32, out: &mut String) -> Mem<()>
    ensures { OnOk result
        (string_bytes out.new ≡ string_bytes out.old ++ text_of 0 (Happening.Pull node source)) }
{
    write_taken(node, source, out)?;
    write_told(node, source, out)
}

/// The node hears of its source and takes what it lacks.
fn write_taken(node: u32, source: u32, out: &mut String) -> Mem<()>
    ensures { OnOk result (string_bytes out.new ≡ string_bytes out.old ++ taken_text node source) }
{
    ask_with("heartbeat", source, node, out)?;
    ask_with("deliver", source, node, out)?;
    ask("fetch", node, "", out)?;
    ask_with("deliver", node, source, out)?;
    ask_with("deliver", source, node, out)
}

/// It applies and stores what it took, and reports.
fn write_told(node: u32, source: u32, out: &mut String) -> Mem<()>
    ensures { OnOk result (string_bytes out.new ≡ string_bytes out.old ++ told_text node source) }
{
    ask("apply", node, " 4", out)?;
    ask("flush", node, "", out)?;
    ask_with("report", node, source, out)?;
    ask_with("deliver", node, source, out)
}

#[tactic(auto, unfolding(crate::specs::Generated::text_of))]
fn write_common(node: u32, other: u32, out: &mut String) -> Mem<()>
    ensures { OnOk result
        (string_bytes out.new ≡ string_bytes out.old ++ text_of 0 (Happening.Common node other)) }
{
    ask_with("common", node, other, out)?;
    ask_with("deliver", node, other, out)?;
    ask_with("deliver", other, node, out)
}

#[tactic(auto, unfolding(crate::specs::Generated::text_of))]
fn write_restart(node: u32, out: &mut String) -> Mem<()>
    ensures { OnOk result
        (string_bytes out.new ≡ string_bytes out.old ++ text_of 0 (Happening.Restart node)) }
{
    ask("crash", node, "", out)?;
    ask("restart", node, "", out)
}

#[tactic(auto, unfolding(crate::specs::Generated::text_of))]
fn write_election(nodes: u32, node: u32, out: &mut String) -> Mem<()>
    ensures { OnOk result
        (string_bytes out.new ≡ string_bytes out.old ++ text_of nodes (Happening.Election node)) }
{
    ask("campaign", node, "", out)?;
    write_votes(nodes, node, out)?;
    ask("drain", node, "", out)?;
    ask("flush", node, "", out)
}

/// Each other node votes.
fn write_votes(nodes: u32, candidate: u32, out: &mut String) -> Mem<()>
    ensures { OnOk result (string_bytes out.new ≡ string_bytes out.old ++ votes_of candidate nodes) }
{
    for voter in 0..nodes {
        write_vote(candidate, voter, out)?;
    }
    Ok(())
}

fn write_vote(candidate: u32, voter: u32, out: &mut String) -> Mem<()>
    ensures { OnOk result (string_bytes out.new ≡ string_bytes out.old ++ vote_of candidate voter) }
{
    if voter == candidate {
        return Ok(());
    }
    ask_with("deliver", candidate, voter, out)?;
    ask_with("deliver", voter, candidate, out)
}
