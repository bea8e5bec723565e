//! Laws of traces: what is written is read back, and what is read can be written.
#![tactic(auto)]

mod laws;

pub use laws::{
    command_can_be_said, command_is_read_back, event_is_one_line, event_is_read_back,
    header_is_read_back, script_can_be_said, trace_is_counted, trace_is_read_back,
};
