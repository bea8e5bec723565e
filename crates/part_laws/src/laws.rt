ghost use Rattle.part_laws.specs.Concerns.{ConcernsAgree, ReadsAgree};
ghost use Rattle.part_laws.specs.Elections.{TalliesAgree, VotesAgree};
ghost use Rattle.part_laws.specs.Logs.{AcceptsAgree, CommonPointsAreLast, FetchesAgree, RollbacksAgree, SourcesAgree};
ghost use Rattle.part_laws.specs.Points.{PointsAgree, ReconfigsAgree};

/// `decide` refuses with the reason with which a node answers, and otherwise gives the vote for the
/// one who asks.
pub fn votes_are_decided_as_a_node_does()
    ensures { VotesAgree }
{}

/// A `Tally` grows as a node's does, and needs the majority that the node needs.
pub fn tallies_grow_as_a_node_s()
    ensures { TalliesAgree }
{}

/// `advance` is where a primary's commit point goes, and `learn` is where another node's goes when it hears
/// of one.
pub fn commit_points_move_as_a_node_s()
    ensures { PointsAgree }
{}

/// `answer` is what a node answers to a concern.
pub fn concerns_are_answered_as_a_node_does()
    ensures { ConcernsAgree }
{}

/// `snapshot` gives the part of the log that a node shows.
pub fn reads_show_what_a_node_does()
    ensures { ReadsAgree }
{}

/// `choose` picks the source that a node picks.
pub fn sources_are_chosen_as_a_node_does()
    ensures { SourcesAgree }
{}

/// `reply_to` is what a node answers.
pub fn entries_are_told_as_a_node_does()
    ensures { FetchesAgree }
{}

/// A secondary accepts what `accept` does.
pub fn answers_are_taken_as_a_node_does()
    ensures { AcceptsAgree }
{}

/// A secondary rolls back as `plan` says.
pub fn rollbacks_are_planned_as_a_node_does()
    ensures { RollbacksAgree }
{}

/// Of two logs that are the same up to the optime asked for, the common point is the last entry both have.
pub fn common_points_are_the_last_in_common()
    ensures { CommonPointsAreLast }
{}

/// A primary refuses a configuration as `check` does.
pub fn configurations_are_refused_as_a_node_does()
    ensures { ReconfigsAgree }
{}
