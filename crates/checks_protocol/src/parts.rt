// The protocol's parts: texts of configurations, and each call once, with answers worked out by hand from the
// rules (MongoDB manual, replica set configuration, write concern, read concern).
ghost use Rattle.std.specs.Prelude.{◌≤◌, IfOk, length};

use commit_point::{Progress, learn};
use election_core::{Count, Tally, VoterView, decide};
use member_config::{Config, ConfigTextError, Member, MemberList};
use oplog_fetcher::{accept, reply_to};
use oplog_store::Oplog;
use read_concern::{Level, ReadAt, snapshot};
use reconfig_core::{ConfigRefusal, check};
use repl_msg::{VoteAsk, VoteRefusal};
use rollback_core::{common_point, plan};
use rs_optime::OpTime;
use std::alloc::Global;
use std::test::Fail;
use sync_source::{Known, NoSource, choose};
use vote_store::{StaleTerm, Vote, VoteError};
use write_concern::{Concern, ConcernAnswer, answer};

const FIRST: OpTime = OpTime { term: 1, ts: 1 };

const SECOND: OpTime = OpTime { term: 1, ts: 2 };

const THIRD: OpTime = OpTime { term: 2, ts: 3 };

// ---- texts of configurations

/// What `to_json` gives for the configuration that a text spells.
fn again(alloc: Global, text: &str) -> Result<String, Fail> {
    let config = Config::from_json(alloc, text)?;
    Ok(config.to_json(alloc)?)
}

fn is_refused(alloc: Global, text: &str) -> bool {
    matches!(
        Config::from_json(alloc, text),
        Err(ConfigTextError::BadConfigText)
    )
}

#[test]
fn defaults_are_filled_in(rt: HostRuntime) -> Result<(), Fail> {
    let text = again(rt.alloc(), r#"{"version":1,"members":[{"_id":0}]}"#)?;
    assert_eq!(rt;
        text.as_str(),
        r#"{"version":1,"members":[{"_id":0,"votes":1,"priority":1}],"settings":{"chainingAllowed":true}}"#
    );
    Ok(())
}

#[test]
fn other_keys_are_passed_over(rt: HostRuntime) -> Result<(), Fail> {
    let text = again(
        rt.alloc(),
        r#" { "term" : 9, "version" : 2147483647 , "members" : [ { "_id" : 2147483647, "votes" : 0, "priority" : 1000, "host" : "a:1", "arbiterOnly" : false, "secondaryDelaySecs" : 0 } ], "settings" : { "chainingAllowed" : false } } "#,
    )?;
    assert_eq!(rt;
        text.as_str(),
        r#"{"version":2147483647,"members":[{"_id":2147483647,"votes":0,"priority":1000}],"settings":{"chainingAllowed":false}}"#
    );
    Ok(())
}

#[test]
fn texts_that_spell_no_configuration(rt: HostRuntime) -> Result<(), Fail> {
    let alloc = rt.alloc();
    assert!(rt; is_refused(alloc, ""));
    assert!(rt; is_refused(alloc, r#"{"version":1,"members":[]} x"#));
    assert!(rt; is_refused(alloc, r#"{"version":0,"members":[]}"#));
    assert!(rt; is_refused(alloc, r#"{"version":1.0,"members":[]}"#));
    Ok(())
}

#[test]
fn members_out_of_range(rt: HostRuntime) -> Result<(), Fail> {
    let alloc = rt.alloc();
    assert!(rt; is_refused(alloc, r#"{"version":1,"members":[{"_id":2147483648}]}"#));
    assert!(rt; is_refused(alloc, r#"{"version":1,"members":[{"_id":0,"votes":true}]}"#));
    assert!(rt;
        is_refused(
            alloc,
            r#"{"version":1,"members":[{"_id":0,"priority":1001}]}"#
        )
    );
    assert!(rt;
        is_refused(
            alloc,
            r#"{"version":1,"members":[{"_id":0,"arbiterOnly":true}]}"#
        )
    );
    Ok(())
}

// ---- three members, numbered from 0

fn three(alloc: Global, version: u32) -> Result<Config, Fail>
    ensures { IfOk result (λ config. length config.members ≤ 50) }
{
    let mut members = MemberList::new(alloc);
    members.push(Member {
        number: 0,
        votes: true,
        priority: 1,
    })?;
    members.push(Member {
        number: 1,
        votes: true,
        priority: 1,
    })?;
    members.push(Member {
        number: 2,
        votes: true,
        priority: 1,
    })?;
    Ok(Config {
        term: 1,
        version,
        members,
        chaining: true,
    })
}

#[test]
fn three_members_break_no_rule(rt: HostRuntime) -> Result<(), Fail> {
    let config = three(rt.alloc(), 1)?;
    assert_eq!(rt; config.rule(), None);
    assert_eq!(rt; config.majority(), 2);
    Ok(())
}

// ---- votes

#[test]
fn a_vote_is_given_once_in_a_term(rt: HostRuntime) -> Result<(), Fail> {
    let vote = Vote {
        term: 1,
        candidate: None,
    };
    assert_eq!(rt;
        vote.grant(1, 2),
        Ok(Vote {
            term: 1,
            candidate: Some(2)
        })
    );
    assert_eq!(rt;
        Vote {
            term: 1,
            candidate: Some(2)
        }
        .grant(1, 2),
        Err(VoteError::AlreadyVoted)
    );
    assert_eq!(rt; vote.raise(1), Err(StaleTerm));
    assert_eq!(rt;
        vote.raise(2),
        Ok(Vote {
            term: 2,
            candidate: None
        })
    );
    Ok(())
}

#[test]
fn a_voter_with_a_longer_log_refuses(rt: HostRuntime) -> Result<(), Fail> {
    let own = VoterView {
        term: 1,
        vote: None,
        config_term: 1,
        config_version: 1,
        last: SECOND,
    };
    let ask = VoteAsk {
        asked: 2,
        dry: false,
        config: (1, 1),
        last: FIRST,
    };
    assert_eq!(rt; decide(&own, 1, &ask), Err(VoteRefusal::OlderLog));
    let ask = VoteAsk {
        asked: 2,
        dry: false,
        config: (1, 1),
        last: SECOND,
    };
    assert_eq!(rt;
        decide(&own, 1, &ask),
        Ok(Vote {
            term: 2,
            candidate: Some(1)
        })
    );
    Ok(())
}

#[test]
fn a_voter_counts_once(rt: HostRuntime) -> Result<(), Fail> {
    let config = three(rt.alloc(), 1)?;
    let mut tally = Tally::new(rt.alloc(), 0, &config)?;
    let _ = tally.add(1)?;
    assert_eq!(rt; tally.add(1)?, Count { yes: 2, needed: 2 });
    Ok(())
}

// ---- points and concerns

#[test]
fn the_greater_report_is_kept(rt: HostRuntime) -> Result<(), Fail> {
    let mut progress = Progress::new(rt.alloc());
    progress.note(1, (1, 2), SECOND)?;
    progress.note(1, (1, 1), FIRST)?;
    assert_eq!(rt; progress.of(1), Some(((1, 2), SECOND)));
    assert_eq!(rt; progress.of(2), None);
    Ok(())
}

#[test]
fn a_majority_commits_and_is_acknowledged(rt: HostRuntime) -> Result<(), Fail> {
    let config = three(rt.alloc(), 1)?;
    let mut progress = Progress::new(rt.alloc());
    progress.note(1, (1, 1), FIRST)?;
    assert_eq!(rt;
        progress.advance(&config, 1, 0, SECOND, OpTime::ZERO),
        FIRST
    );
    assert_eq!(rt;
        answer(
            &progress,
            &config,
            0,
            SECOND,
            FIRST,
            FIRST,
            Concern::Majority
        ),
        ConcernAnswer::Acked
    );
    assert_eq!(rt;
        answer(
            &progress,
            &config,
            0,
            SECOND,
            FIRST,
            SECOND,
            Concern::Count(2)
        ),
        ConcernAnswer::Waiting { held: 1, needed: 2 }
    );
    assert_eq!(rt;
        answer(
            &progress,
            &config,
            0,
            SECOND,
            FIRST,
            SECOND,
            Concern::Count(4)
        ),
        ConcernAnswer::CannotSatisfy { members: 3 }
    );
    Ok(())
}

#[test]
fn a_point_is_learnt_as_far_as_the_node_is_durable(rt: HostRuntime) -> Result<(), Fail> {
    assert_eq!(rt; learn(OpTime::ZERO, THIRD, FIRST), FIRST);
    assert_eq!(rt; learn(SECOND, FIRST, THIRD), SECOND);
    Ok(())
}

#[test]
fn a_majority_read_shows_the_commit_point(rt: HostRuntime) -> Result<(), Fail> {
    assert_eq!(rt;
        snapshot(Level::Majority, true, FIRST, SECOND),
        ReadAt::At(FIRST)
    );
    assert_eq!(rt; snapshot(Level::Local, true, FIRST, SECOND), ReadAt::Latest);
    assert_eq!(rt;
        snapshot(Level::Local, false, FIRST, SECOND),
        ReadAt::At(SECOND)
    );
    Ok(())
}

// ---- sources, fetching, rolling back

#[test]
fn the_lowest_number_that_goes_further(rt: HostRuntime) -> Result<(), Fail> {
    let config = three(rt.alloc(), 1)?;
    let known = [
        Known {
            member: 2,
            last: THIRD,
            primary: true,
        },
        Known {
            member: 1,
            last: SECOND,
            primary: false,
        },
    ];
    assert_eq!(rt; choose(&config, 0, FIRST, &known), Ok(1));
    assert_eq!(rt; choose(&config, 0, SECOND, &known), Ok(2));
    assert_eq!(rt; choose(&config, 0, THIRD, &known), Err(NoSource));
    Ok(())
}

#[test]
fn an_empty_log_answers_from_the_beginning(rt: HostRuntime) -> Result<(), Fail> {
    let log = Oplog::new(rt.alloc());
    let reply = reply_to(
        rt.alloc(),
        &log,
        OpTime::ZERO,
        OpTime::ZERO,
        OpTime::ZERO,
        true,
    )?;
    assert!(rt; reply.holds);
    assert_eq!(rt; accept(OpTime::ZERO, &reply)?.len(), 0);
    assert!(rt; accept(FIRST, &reply).is_err());
    Ok(())
}

#[test]
fn nothing_in_common_is_the_beginning(rt: HostRuntime) -> Result<(), Fail> {
    let log = Oplog::new(rt.alloc());
    assert_eq!(rt; common_point(&log, OpTime::ZERO, &[FIRST]), OpTime::ZERO);
    assert!(rt; plan(1, &log, SECOND, THIRD, OpTime::ZERO, &[FIRST]).is_err());
    assert_eq!(rt;
        plan(2, &log, SECOND, THIRD, OpTime::ZERO, &[FIRST]),
        Ok(OpTime::ZERO)
    );
    Ok(())
}

// ---- reconfiguring

#[test]
fn a_configuration_waits_for_a_majority(rt: HostRuntime) -> Result<(), Fail> {
    let current = three(rt.alloc(), 1)?;
    let new = three(rt.alloc(), 2)?;
    let mut progress = Progress::new(rt.alloc());
    progress.note(1, (1, 0), FIRST)?;
    assert_eq!(rt;
        check(&current, &new, 0, 3, 1, &progress, FIRST, FIRST),
        Err(ConfigRefusal::ConfigNotCommitted {
            count: 1,
            needed: 2
        })
    );
    progress.note(1, (1, 1), FIRST)?;
    assert_eq!(rt;
        check(&current, &new, 0, 3, 1, &progress, FIRST, FIRST),
        Ok(())
    );
    assert_eq!(rt;
        check(&current, &new, 0, 2, 1, &progress, FIRST, FIRST),
        Err(ConfigRefusal::UnknownMember(2))
    );
    Ok(())
}
