ghost use Rattle.std.specs.Prelude.{◌≡◌};

use script_words::ScriptRule;

/// The first faulty line of a script, counted from 1, and its rule.
#[derive(Clone, Copy, Debug, PartialEq, Eq)]
pub struct ScriptFault {
    pub line: u32,
    pub rule: ScriptRule,
}

/// Why bytes aren't a script.
#[derive(Clone, Copy, Debug, PartialEq, Eq)]
pub enum ScriptError {
    /// The first faulty line, with its first fault from left to right.
    Fault(ScriptFault),
    /// Out of memory.
    Memory,
}

impl From<ScriptFault> for ScriptError {
    ghost use Rattle.fault_script.specs.declared.fault.ScriptError.TheVariants.{Fault};

    ghost from_gives = { λ fault error. error ≡ Fault fault };

    fn from(fault: ScriptFault) -> Self {
        ScriptError::Fault(fault)
    }
}
