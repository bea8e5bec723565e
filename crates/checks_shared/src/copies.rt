// A copy of what a node did: memory suffices, and it has what was copied, even after the original is gone.
use node_core::Done;
use repl_msg::{Body, Message};
use rs_optime::OpTime;
use set_model::Reply;
use std::test::Fail;

const AT: OpTime = OpTime { term: 1, ts: 2 };

/// Whether exactly one message was sent, which asks what comes after an optime.
fn asks(sent: &[Message]) -> bool {
    let [message] = sent else {
        return false;
    };
    match &message.body {
        Body::Fetch { base } => *base == AT,
        _ => false,
    }
}

#[test]
fn what_a_node_did_is_copied_with_its_messages(rt: HostRuntime) -> Result<(), Fail> {
    let mut sent = Vec::new(rt.alloc());
    sent.push(Message {
        from: 0,
        to: 1,
        term: 3,
        body: Body::Fetch { base: AT },
    })?;
    let done = Done {
        reply: Reply::Down,
        sent,
        failed: Some(2),
        kept: true,
    };
    let copy = done.copy()?;
    drop(done);
    assert!(rt; asks(&copy.sent));
    assert!(rt; matches!(copy.reply, Reply::Down));
    assert_eq!(rt; copy.failed, Some(2));
    assert!(rt; copy.kept);
    Ok(())
}
