// Why a watch ends before its last node has no more changes.
ghost use Rattle.std.specs.Prelude.{◌≡◌};
ghost use Rattle.change_watch.specs.Causes.{of_sink, of_stream};
ghost use Rattle.change_watch.specs.declared.stop.WatchStop.TheVariants.{Memory as IsMemory, Refused as IsRefused};

use change_stream::WatchError;
use change_words::WatchRefusal;
use rs_io::SinkError;
use std::alloc::AllocError;

/// Why a watch stopped before its end.
#[derive(Clone, Copy, Debug, PartialEq, Eq)]
pub enum WatchStop {
    /// A node refused to give its changes, and the line that says so was put.
    Refused(WatchRefusal),
    /// The sink failed.
    WriteFault,
    /// Out of memory.
    Memory,
}

impl From<WatchRefusal> for WatchStop {
    ghost from_gives = { λ r s. s ≡ IsRefused r };

    fn from(why: WatchRefusal) -> Self {
        WatchStop::Refused(why)
    }
}

impl From<AllocError> for WatchStop {
    ghost from_gives = { λ _ s. s ≡ IsMemory };

    fn from(_: AllocError) -> Self {
        WatchStop::Memory
    }
}

impl From<SinkError> for WatchStop {
    ghost from_gives = { λ e s. s ≡ of_sink e };

    fn from(error: SinkError) -> Self {
        match error {
            SinkError::Failed => WatchStop::WriteFault,
            SinkError::Memory => WatchStop::Memory,
        }
    }
}

impl From<WatchError> for WatchStop {
    ghost from_gives = { λ e s. s ≡ of_stream e };

    fn from(error: WatchError) -> Self {
        match error {
            WatchError::NodeDown => WatchStop::Refused(WatchRefusal::NodeDown),
            WatchError::UnknownToken => WatchStop::Refused(WatchRefusal::UnknownToken),
            // A full history has no room for one more event.
            WatchError::HistoryFull | WatchError::Memory => WatchStop::Memory,
        }
    }
}
