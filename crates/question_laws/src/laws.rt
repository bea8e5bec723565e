ghost use Rattle.question_laws.specs.Laws.{ActsAreCovered, FollowersAreLed, FollowersAreRuns, SearchesAreWhole, SearchesTell};

use explore_laws::dead_messages_change_nothing;

/// Where a standing is covered by another, so is what an act leads to: by that one, or by what an act of that
/// one leads to.
pub fn acts_are_covered()
    ensures { ActsAreCovered }
{
    dead_messages_change_nothing();
}

/// A table that has, for each act from each of its standings, one that covers where the act leads covers all
/// that follows the question. What follows a question is led from its start, act by act, and leaves the wants
/// that are left there. So where no standing of the table has all wants met, no run meets them.
pub fn searches_are_whole()
    ensures whole { SearchesAreWhole }
    ensures led { FollowersAreLed }
    ensures tell { SearchesTell }
{
    acts_are_covered();
}

/// What follows a question is a run of its set, so the laws of all runs hold of it.
pub fn followers_are_runs()
    ensures { FollowersAreRuns }
{}
