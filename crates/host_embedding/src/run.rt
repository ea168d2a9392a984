//! The store and the run.
ghost use Rattle.machine_data.specs.declared.scenario.Version.TheVariants as versions;
ghost use Rattle.std.specs.Prelude.{◌≡◌, ℕ, length, true, false, IfOk};
ghost use Rattle.store_works.specs.KeptWorks.{HoldsNone};
ghost use Rattle.machine_data.specs.Core.{fresh};
ghost use Rattle.core_records.specs.Seen.{nothing};
ghost use Rattle.core_primitives.specs.Groups.{IsAsked};
ghost use Rattle.ops_turns.specs.Covered.{HasPlainExports};
ghost use Rattle.core_primitives.specs.StateView.{with_core};
ghost use Rattle.host_embedding.specs.Host.{TakesOne};
ghost use Rattle.host_embedding.specs.Relays.{RanFromNew, last_word};

use crate::parts::{DOUBLE, NEXT};
use crate::relay::Relay;
use std::alloc::Global;
use task_loop::{Component, NoMemory, Outcome, Trace, run_concurrent};
use task_store::{ScriptedHost, Store};

// How many steps the run may take.
const STEPS: u32 = 64;

// A new store with two instances.
fn store(alloc: Global) -> Result<Store<(), ScriptedHost>, NoMemory>
    ensures state { IfOk result (λ s. s.state ≡ with_core (fresh versions.One 2 100000 1000000) nothing) }
    ensures free { IfOk result (λ s. s.running ≡ false) }
    ensures works { IfOk result (λ s. HoldsNone s.works) }
    ensures groups { IfOk result (λ s. IsAsked s.state) }
{
    let mut store = Store::new(alloc, (), true, 1);
    store.add_instance()?;
    store.add_instance()?;
    Ok(store)
}

/// Drives a `Relay` with this word: what was added to an empty trace is a run of the component machine from a new store with two
/// instances, and the outcome is what it has resulted in. What the relay has answered is what the last call that was finished has
/// returned, as the run's labels show it.
pub fn relayed(
    alloc: Global,
    component: &Component,
    word: u64,
) -> Result<(Trace, Outcome), NoMemory>
    requires exports { HasPlainExports component.now }
    requires double { TakesOne component.now DOUBLE }
    requires next { TakesOne component.now NEXT }
    requires two { length component.now.instances ≡ 2 }
    ensures answers { IfOk result (λ r. (v : ℕ) → r.1 ≡ Outcome.Done v → v ≡ last_word word r.0) }
    ensures ran { IfOk result (λ r. RanFromNew component.now r.0 STEPS r.1) }
{
    let mut store = store(alloc)?;
    let Ok(mut run) = run_concurrent(&mut store, true) else {
        unreachable!()
    };
    let mut main = Relay::new(alloc, word);
    let mut trace = Trace::new(alloc);
    let outcome = run.drive(component, &mut store, &mut main, STEPS, &mut trace)?;
    run.end(&mut store);
    Ok((trace, outcome))
}
