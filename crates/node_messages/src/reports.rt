// Reports of how far members are durable, as they arrive.
ghost use Rattle.std.specs.Prelude.{◌≡◌, map, IfOk, OnErr, OnOk};
ghost use Rattle.member_config.specs.Numbers.{is_among};
ghost use Rattle.set_model.specs.Reports as rows;
ghost use Rattle.set_model.specs.Stores.{finished};
ghost use Rattle.node_messages.specs.HeardBeats.{report_ignored};
ghost use Rattle.node_state.specs.Ready.{IsReadyTurn};
ghost use Rattle.node_state.specs.Turns.{Means};

use bson_doc::Mem;
use member_config::Member;
use node_state::{State, Turn};
use rs_optime::OpTime;
use set_model::{Ignored, Reply, Role};

fn has_number(members: &[Member], number: u32) -> bool
    ensures { result ≡ is_among number (map (λ m. m.number) members.now) }
{
    for member in members {
        if member.number == number {
            return true;
        }
    }
    false
}

/// Takes a report of how far a member is durable. The message's term isn't higher than the node's.
pub(crate) fn report_told(
    state: &mut State,
    from: u32,
    term: u64,
    config: (u64, u32),
    durable: OpTime,
) -> Mem<Turn>
    ensures turn { IfOk result (λ turn.
        Means turn state.new.node (finished (rows.report_told state.old.node from term config durable))) }
    ensures ready { IfOk result (λ turn. IsReadyTurn turn state.new) }
    ensures err { OnErr result (state.new.node ≡ state.old.node) }
{
    if let Some(why) = report_ignored(state, from, term) {
        return Ok(state.answered(Reply::Ignored(why)));
    }
    note_report(state, from, config, durable)?;
    state.evaluate();
    Ok(state.answered(Reply::Counted(state.commit)))
}

/// Why a report isn't counted.
fn report_ignored(state: &State, from: u32, term: u64) -> Option<Ignored>
    ensures { result ≡ report_ignored state.now.node from term }
{
    if term < state.term {
        return Some(Ignored::OldTerm);
    }
    if state.role != Role::Primary {
        return Some(Ignored::NotPrimary);
    }
    if !has_number(state.config.members.as_slice(), from) {
        return Some(Ignored::NotMember);
    }
    None
}

fn note_report(state: &mut State, from: u32, config: (u64, u32), durable: OpTime) -> Mem<()>
    ensures ok { OnOk result (state.new.node
        ≡ rows.with_report state.old.node from (record { config = config; durable = durable })) }
    ensures err { OnErr result (state.new.node ≡ state.old.node) }
{
    state.progress.note(from, config, durable)
}
