ghost use Rattle.std.specs.Prelude.{◌≡◌, ◌≤◌, ◌++◌, ℕ, false, length, List, Ok, Some};
ghost use Rattle.std.specs.List.{AllByRecursion, list_any};
ghost use Rattle.fault_script.specs.declared.script.Script.{Script};
ghost use Rattle.fault_script.specs.Script.{lines_in, script};
ghost use Rattle.run_checker.specs.Checking.{IsTrace, checked, set_of};
ghost use Rattle.run_checker.specs.Commands.{command_text};
ghost use Rattle.run_checker.specs.Reading.{event_at, header_in, is_line_feed};
ghost use Rattle.run_checker.specs.Trace.{event_words, header_text, trace_text};
ghost use Rattle.script_words.specs.Commands.{command_at};
ghost use Rattle.set_model.specs.declared.command.Command.{Command};
ghost use Rattle.set_model.specs.declared.command.Event.{Event};
ghost use Rattle.set_model.specs.Limits.{IsRun};
ghost use Rattle.set_model.specs.Run.{AreSizes};
ghost use Rattle.trace_laws.specs.Said.{AreSaid, CanBePrinted, CanBeSaid, IsEventLine, replies_of};

/// A command that a script can name is read back from its text.
pub fn command_is_read_back()
    ensures { (nodes : ℕ) (command : Command) → nodes ≤ 50 → CanBeSaid nodes command
        → command_at nodes (command_text command) ≡ Ok command }
{}

/// An event of such a command is read back from the words of its line.
pub fn event_is_read_back()
    ensures { (nodes : ℕ) (event : Event) → nodes ≤ 50 → IsEventLine nodes event
        → event_at nodes (event_words event) ≡ Ok event }
{}

/// There is no line feed among these words.
pub fn event_is_one_line()
    ensures { (nodes : ℕ) (event : Event) → nodes ≤ 50 → IsEventLine nodes event
        → list_any is_line_feed (event_words event) ≡ false }
{}

/// The sizes of a set are read back from a trace's header.
pub fn header_is_read_back()
    ensures { (sizes : ℕ × ℕ × ℕ) (rest : List ℕ) → AreSizes (set_of sizes)
        → header_in (header_text sizes ++ rest) ≡ Some (sizes, rest) }
{}

/// A command that was read can be written.
pub fn command_can_be_said()
    ensures { (nodes : ℕ) (text : List ℕ) (command : Command)
        → command_at nodes text ≡ Ok command → CanBeSaid nodes command }
{}

/// So can each command of a script that was read.
pub fn script_can_be_said()
    ensures { (bytes : List ℕ) (read : Script) → script bytes ≡ Ok read
        → AreSaid read.nodes (lines_in read.parts) }
{}

/// The trace that is written of a run is a trace of its events, if each of them can be printed.
pub fn trace_is_read_back()
    ensures { (sizes : ℕ × ℕ × ℕ) (events : List Event) → AreSizes (set_of sizes)
        → IsRun (set_of sizes) events → AllByRecursion (CanBePrinted sizes.0) events
        → IsTrace sizes events (trace_text sizes events (replies_of sizes events)) }
{}

/// So a check of it gives the number of them.
pub fn trace_is_counted()
    ensures { (sizes : ℕ × ℕ × ℕ) (events : List Event) → AreSizes (set_of sizes)
        → IsRun (set_of sizes) events → AllByRecursion (CanBePrinted sizes.0) events
        → checked (trace_text sizes events (replies_of sizes events)) ≡ Ok (length events) }
{}
