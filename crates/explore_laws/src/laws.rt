ghost use Rattle.explore_laws.specs.Laws.{AlikeWorldsStayAlike, DeadMessagesAreUntaken, DeadMessagesChangeNothing, DeadMessagesComeInBoth, DeadMessagesStayDead, NodesAreSettled, NodesStaySettled};
ghost use Rattle.explore_laws.specs.Steps.{CommandsGoAlike, MessagesGoAlike};

use safety_laws::nothing_changes;

/// A command, or a message, comes to the same at two nodes that are alike. They answer alike but for numbers
/// of messages, send the same and stay alike. Only with a higher term does a secondary get another role, or a
/// node become a candidate.
pub fn alike_nodes_go_alike()
    ensures commands { CommandsGoAlike }
    ensures messages { MessagesGoAlike }
{}

/// Two worlds that are alike stay alike under the same event, and its replies differ in numbers of messages
/// alone. Where the second has a dead message if the first has one, so it is after the event.
pub fn alike_worlds_stay_alike()
    ensures alike { AlikeWorldsStayAlike }
    ensures dead { DeadMessagesComeInBoth }
{}

/// A dead message stays dead, also over a crash.
pub fn dead_messages_stay_dead()
    ensures { DeadMessagesStayDead }
{}

/// The delivery of a dead message leaves the world as it was. It is refused or ignored, or it tells that a
/// vote wasn't given.
pub fn dead_messages_change_nothing()
    ensures stays { DeadMessagesChangeNothing }
    ensures untaken { DeadMessagesAreUntaken }
{
    nothing_changes();
}

/// As long as no store fails, nothing is in doubt, and the term of each node that is up is that of its
/// records.
pub fn nodes_are_settled()
    ensures step { NodesStaySettled }
    ensures runs { NodesAreSettled }
{}
