//! What a search through all runs rests on. Worlds that are alike stay alike, so it looks at one of them. A
//! message that is dead stays dead and changes nothing, so it is never delivered.
#![tactic(auto)]

mod laws;

pub use laws::{
    alike_nodes_go_alike, alike_worlds_stay_alike, dead_messages_change_nothing,
    dead_messages_stay_dead, nodes_are_settled,
};
