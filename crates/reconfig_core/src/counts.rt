ghost use Rattle.std.specs.Prelude.{◌≡◌, ◌≤◌, length};
ghost use Rattle.repl_msg.specs.Configs as words;

use commit_point::Progress;
use member_config::Config;

/// How many voters have the current configuration, to the primary's knowledge.
pub(crate) fn config_held(current: &Config, own: u32, progress: &Progress) -> u32
    requires { length current.now.members ≤ 50 }
    ensures { result ≡ words.config_held progress.now current.now own }
{
    let mut count = 0;
    for member in current.members.as_slice() {
        if member.votes && has_config(current, own, progress, member.number) {
            count += 1;
        }
    }
    count
}

/// Whether a member has the current configuration: the primary itself does, and another one does
/// by its report.
fn has_config(current: &Config, own: u32, progress: &Progress, member: u32) -> bool
    ensures { result ≡ words.has_config progress.now current.now own member }
{
    if member == own {
        return true;
    }
    match progress.of(member) {
        Some((id, _)) => id.0 == current.term && id.1 == current.version,
        None => false,
    }
}
