use rs_optime::OpTime;

/// The last write of a client's session in a log.
#[derive(Clone, Copy)]
pub struct LastWrite {
    /// The greatest number of a write in the session.
    pub number: u32,
    /// The optime of its entry.
    pub at: OpTime,
}
