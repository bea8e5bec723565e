use rs_optime::OpTime;

/// Which versions of each document are dropped.
#[derive(Clone, Copy)]
pub(crate) enum Cut {
    /// Those after an optime.
    After(OpTime),
    /// Those at an optime, and those after it.
    From(OpTime),
    /// Those that make no difference to a read at or after an optime.
    Unseen(OpTime),
}
