// Random scripts.
ghost use Rattle.std.specs.Prelude.{◌≡◌, ◌≤◌, ◌*◌, ◌++◌, IfOk, OnOk, string_bytes};
ghost use Rattle.chance_script.specs.Generated.{generated, set_text};

use crate::happening::draw;
use bson_doc::Mem;
use rand_core::SeedableRng;
use rand_pcg::Pcg32;
use std::alloc::Global;
use std::fmt::Write;

/// The bytes of the script of a seed, with `events` events in a set of `nodes` nodes. They are a script of
/// that set (`script_laws`).
///
/// A seed always gives the same script, drawn from the PCG32 of the crate `rand_pcg`. There are at most 5,000
/// events and 1 to 50 nodes, and their product is at most 50,000.
pub fn generate(alloc: Global, seed: u64, events: u32, nodes: u32) -> Mem<Vec<u8>>
    requires few { events ≤ 5000 }
    requires sizes { 1 ≤ nodes × nodes ≤ 50 }
    requires product { events * nodes ≤ 50000 }
    ensures { IfOk result (λ bytes. bytes.items ≡ generated seed events nodes) }
{
    let mut out = String::new(alloc);
    write_set(nodes, &mut out)?;
    let mut generator = Pcg32::seed_from_u64(seed);
    for event in 0..events {
        draw(&mut generator, nodes, event).write(nodes, &mut out)?;
    }
    Ok(out.into_bytes())
}

fn write_set(nodes: u32, out: &mut String) -> Mem<()>
    ensures { OnOk result (string_bytes out.new ≡ string_bytes out.old ++ set_text nodes) }
{
    write!(out, "set {nodes}\n")
}
