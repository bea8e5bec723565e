// The calls and what they answer, as replset.h numbers them.
ghost use Rattle.std.specs.Prelude.{◌≡◌};
ghost use Rattle.play_c.specs.Calls.{call_of, number_of};

/// A call by its number.
#[derive(Clone, Copy, Debug, PartialEq, Eq)]
pub(crate) enum Call {
    Step,
    Steps,
    Ask,
    Script,
    Trace,
    Messages,
    Line,
    Text,
}

/// What a call answers.
#[derive(Clone, Copy, Debug, PartialEq, Eq)]
pub(crate) enum Answer {
    Done,
    BadLine,
    Memory,
    BadSizes,
    BadCall,
    NoSet,
}

impl Call {
    /// The call of a number.
    #[tactic(auto, unfolding(crate::specs::Calls::call_of))]
    pub(crate) fn of(number: u32) -> Option<Call>
        ensures { result ≡ call_of number }
    {
        match number {
            1 => Some(Call::Step),
            2 => Some(Call::Steps),
            3 => Some(Call::Ask),
            4 => Some(Call::Script),
            5 => Some(Call::Trace),
            6 => Some(Call::Messages),
            7 => Some(Call::Line),
            8 => Some(Call::Text),
            _ => None,
        }
    }
}

impl Answer {
    /// Its number.
    pub(crate) fn number(self) -> u32
        ensures { result ≡ number_of self }
    {
        match self {
            Answer::Done => 0,
            Answer::BadLine => 1,
            Answer::Memory => 2,
            Answer::BadSizes => 3,
            Answer::BadCall => 4,
            Answer::NoSet => 5,
        }
    }
}
