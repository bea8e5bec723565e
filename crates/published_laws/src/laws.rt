ghost use Rattle.safety_laws.specs.Laws.{InEveryRun};
ghost use Rattle.published_laws.specs.SetShown.{SetsAreReconfigs};
ghost use Rattle.published_laws.specs.RaftMongoShown as raft_mongo;
ghost use Rattle.published_laws.specs.ReconfigShown.{EachHappens, RunsAreReconfigs};

/// Each run of a set is a behaviour of MongoRaftReconfig: with each event it goes on by some steps, after
/// which each node is as the server of its number.
pub fn sets_are_reconfigs()
    ensures { InEveryRun SetsAreReconfigs }
{}

/// Each run of the small machine is a behaviour of MongoRaftReconfig. Each action is done by one of its
/// actions, or leaves its variables as they were.
pub fn reconfig_behaviours()
    ensures { RunsAreReconfigs }
{}

/// No action of MongoRaftReconfig is impossible: each happens in some behaviour of three servers.
pub fn reconfig_actions_happen()
    ensures { EachHappens }
{}

/// Each run of the small machine in which no reconfiguration changes the voters is a behaviour of RaftMongo.
/// Each action is done by one of its actions, or leaves its variables as they were.
pub fn raft_mongo_behaviours()
    ensures { raft_mongo.RunsAreRaftMongos }
{}

/// No action of RaftMongo is impossible: each happens in some behaviour of three servers.
pub fn raft_mongo_actions_happen()
    ensures { raft_mongo.EachHappens }
{}
