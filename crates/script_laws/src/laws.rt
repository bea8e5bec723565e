ghost use Rattle.std.specs.Prelude.{◌≤◌, ◌*◌};
ghost use Rattle.chance_script.specs.Generated.{generated};
ghost use Rattle.script_laws.specs.Laws.{IsScriptFor};

/// What is generated from a seed is a script of a set of this size.
pub fn generated_is_script(seed: u64, events: u32, nodes: u32)
    requires few { events ≤ 5000 }
    requires sizes { 1 ≤ nodes × nodes ≤ 50 }
    requires product { events * nodes ≤ 50000 }
    ensures { IsScriptFor nodes (generated seed events nodes) }
{
    let _ = (seed, events, nodes);
}
