ghost use Rattle.std.specs.Prelude.{◌≡◌, ◌≤◌, None, Some, length, OnOk, IfErr};
ghost use Rattle.member_config.specs.Voters.{unknown_member};
ghost use Rattle.reconfig_core.specs.Reconfig as words;

use crate::ConfigRefusal;
use crate::counts::config_held;
use commit_point::Progress;
use member_config::Config;
use rs_optime::OpTime;

/// Whether a primary, whose number is `own`, may take a new configuration in a set of so many nodes;
/// otherwise the first reason against it. Among them: a majority of the current configuration's voters
/// doesn't have that configuration yet, or no entry of the primary's term is committed yet.
pub fn check(
    current: &Config,
    new: &Config,
    own: u32,
    nodes: u32,
    term: u64,
    progress: &Progress,
    durable: OpTime,
    commit: OpTime,
) -> Result<(), ConfigRefusal>
    requires { length current.now.members ≤ 50 }
    ensures ok { OnOk result
        (words.refusal current.now new.now own nodes term progress.now durable commit ≡ None) }
    ensures err { IfErr result (λ why.
        words.refusal current.now new.now own nodes term progress.now durable commit ≡ Some why) }
{
    if let Some(rule) = new.rule() {
        return Err(ConfigRefusal::ConfigRule(rule));
    }
    if let Some(number) = unknown_member(new, nodes) {
        return Err(ConfigRefusal::UnknownMember(number));
    }
    if let Some(why) = change_refusal(current, new, own) {
        return Err(why);
    }
    match committed_refusal(current, own, term, progress, durable, commit) {
        Some(why) => Err(why),
        None => Ok(()),
    }
}

/// The first member that isn't a node of the set.
fn unknown_member(config: &Config, nodes: u32) -> Option<u32>
    ensures { result ≡ unknown_member nodes config.now }
{
    for member in config.members.as_slice() {
        if member.number >= nodes {
            return Some(member.number);
        }
    }
    None
}

/// What the new configuration lacks, compared with the current one.
fn change_refusal(current: &Config, new: &Config, own: u32) -> Option<ConfigRefusal>
    ensures { result ≡ words.change_refusal current.now new.now own }
{
    if new.version <= current.version {
        return Some(ConfigRefusal::WrongVersion);
    }
    if !new.is_voter(own) || !new.is_electable(own) {
        return Some(ConfigRefusal::PrimaryNotMember);
    }
    if !current.one_voter_apart(new) {
        return Some(ConfigRefusal::TwoVoters);
    }
    None
}

/// What the current configuration lacks.
fn committed_refusal(
    current: &Config,
    own: u32,
    term: u64,
    progress: &Progress,
    durable: OpTime,
    commit: OpTime,
) -> Option<ConfigRefusal>
    requires { length current.now.members ≤ 50 }
    ensures { result ≡ words.committed_refusal current.now own term progress.now durable commit }
{
    let needed = current.majority();
    let count = config_held(current, own, progress);
    if count < needed {
        return Some(ConfigRefusal::ConfigNotCommitted { count, needed });
    }
    if commit.term != term {
        return Some(ConfigRefusal::TermNotCommitted(commit));
    }
    let count = progress.voters_at(current, own, durable, commit);
    if count < needed {
        return Some(ConfigRefusal::OplogNotCommitted { count, needed });
    }
    None
}
